//! Where readings stand.

use crate::opened::Opened;

/// Where a reading stands in a span: the symbols before the dot are read up to the place.
#[derive(Clone, Copy)]
pub(crate) struct Standing<'a> {
    pub(crate) opened: &'a Opened,
    pub(crate) dot: usize,
    pub(crate) place: u32,
}
