//! Nodes of derivations in lists.

/// A node of a derivation: the number of its rule, the place of its entry, and whether what it is
/// lowered to is needed.
#[derive(Clone, Copy)]
pub(crate) struct Node {
    pub number: u32,
    pub at: usize,
    pub is_needed: bool,
}
