//! Modules that were made.

use sx_term::Text;

/// What is kept of a module that was made: its name, its three texts, and how many nodes its
/// derivation has.
#[derive(Drop)]
pub(crate) struct Made {
    pub(crate) name: Text,
    pub(crate) base: Vec<u8>,
    pub(crate) list: Vec<u8>,
    pub(crate) interface: Vec<u8>,
    pub(crate) nodes: u64,
}
