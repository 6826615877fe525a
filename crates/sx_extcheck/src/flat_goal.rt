//! Flat goals.

use sx_rules::Goal;
use sx_term::Term;

/// The goal of a flat conclusion, and the outputs that are wanted of it.
#[derive(Drop)]
pub(crate) struct FlatGoal {
    pub goal: Goal,
    pub wanted: Vec<Term>,
}
