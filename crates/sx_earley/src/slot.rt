//! Slots of tables.

/// A place among the tokens, and the number of a sort.
#[derive(Clone, Copy, PartialEq, Eq, Hash)]
pub(crate) struct Slot {
    pub place: u32,
    pub sort: u32,
}
