//! The items that an item may meet.

use crate::filed::Filed;

/// The numbers of the items by their keys, and by what keys those that may wait for an item, and
/// those for which it may wait, are found, if there are any.
#[derive(Clone, Copy)]
pub(crate) struct Neighbours<'a> {
    pub(crate) filed: &'a Filed,
    pub(crate) before: Option<u32>,
    pub(crate) filling: Option<u32>,
}
