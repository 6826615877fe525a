//! What makers reach.

use crate::entry::Maker;
use crate::stretch::Stretch;

/// The places from the first to the last of those that the maker reaches.
#[derive(Clone, Copy)]
pub(crate) struct Reach {
    pub(crate) maker: Maker,
    pub(crate) places: Stretch,
}
