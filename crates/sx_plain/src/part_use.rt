//! What a flat body does with one of its parts.

/// How often the part stands in the body, and how many nodes stand above its deepest place.
#[derive(Clone, Copy)]
pub(crate) struct PartUse {
    pub times: u32,
    pub above: u32,
}
