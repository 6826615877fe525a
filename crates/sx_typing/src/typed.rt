//! Typed bodies.

use sx_rules::{Entry, Goal};
use sx_term::Term;

/// The goal of a source with the term of its body, the list of the goal's first derivation, and its
/// output.
#[derive(Drop)]
pub struct Typed {
    pub goal: Goal,
    pub list: Vec<Entry>,
    pub output: Term,
}
