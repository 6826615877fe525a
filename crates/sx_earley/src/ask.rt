//! What is asked for.

/// A sort that is asked for at a place, at a least level.
#[derive(Clone, Copy)]
pub(crate) struct Ask {
    pub sort: u32,
    pub least: u8,
    pub place: u32,
}
