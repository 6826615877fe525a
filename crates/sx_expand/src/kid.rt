//! Kids of nodes in lists.

use sx_rules::Judgement;

/// A kid of a node: the premise of the node's rule that it is for, the place of its entry, and
/// whether what it is lowered to is needed.
#[derive(Clone, Copy)]
pub(crate) struct Kid<'a> {
    pub premise: &'a Judgement,
    pub at: usize,
    pub is_needed: bool,
}
