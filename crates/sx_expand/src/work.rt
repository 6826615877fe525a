//! A node in work.

use sx_arena::Binds;

/// The bindings of the variables of a node's rule so far, and the chain that has them all.
#[derive(Drop)]
pub(crate) struct Work {
    pub binds: Binds,
    pub env: usize,
}
