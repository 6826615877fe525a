//! Items.

use crate::head::Head;

/// A head's production, read up to the dot from the origin to the end. Places count tokens.
#[derive(Clone, Copy, PartialEq, Eq, Hash, Debug)]
pub struct Item {
    pub head: Head,
    pub dot: usize,
    pub origin: u32,
    pub end: u32,
}
