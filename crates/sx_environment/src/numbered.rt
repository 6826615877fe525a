//! Imports with their numbers.

use sx_interface::Interface;

/// The interface of an import, with the number of the import, from 0.
#[derive(Clone, Copy)]
pub(crate) struct Numbered<'a> {
    pub(crate) number: usize,
    pub(crate) interface: &'a Interface,
}
