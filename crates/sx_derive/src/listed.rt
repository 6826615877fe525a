//! The list of what a search found.

use sx_rules::Entry;
use sx_term::Term;

/// The entries of a derivation in preorder, and the outputs of what it derives.
#[derive(Drop)]
pub struct Listed {
    pub entries: Vec<Entry>,
    pub outputs: Vec<Term>,
}
