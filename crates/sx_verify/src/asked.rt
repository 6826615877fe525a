//! What is asked of a verification.

use std::alloc::Global;
use sx_term::Text;

/// The name of the module, and the names of its base file, its list and its interface.
#[derive(Clone, Copy)]
pub(crate) struct Asked<'a> {
    pub(crate) alloc: Global,
    pub(crate) name: &'a Text,
    pub(crate) base: &'a Text,
    pub(crate) list: &'a Text,
    pub(crate) interface: &'a Text,
}
