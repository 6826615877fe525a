//! Chains of bindings.

use crate::binds::Binds;

/// The bindings of a chain: the cells, and how many of them there are up to its last one.
#[derive(Clone, Copy)]
pub struct Chain<'a> {
    pub binds: &'a Binds,
    pub env: usize,
}
