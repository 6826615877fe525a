//! The heads of items.

/// What a span or an item is of: the production with this label, or the bracket pair of this sort.
#[derive(Clone, Copy, PartialEq, Eq, Hash, Debug)]
pub enum Head {
    Labelled(u32),
    Bracketed(u32),
}
