//! What a node ends with.

use sx_term::Term;

/// The terms that are bound at a node, and the numbers of the outputs of what it derives.
#[derive(Drop)]
pub(crate) struct NodeEnds {
    pub binds: Vec<Term>,
    pub outputs: Vec<usize>,
}
