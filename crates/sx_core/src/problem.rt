//! Core problems.

use sx_rules::{Goal, RuleSet};
use sx_term::Text;

/// What a core file states: the names of its sorts and of its constructors, its rules, and its
/// goal.
#[derive(Drop)]
pub struct CoreProblem {
    pub sorts: Vec<Text>,
    pub cons: Vec<Text>,
    pub rules: RuleSet,
    pub goal: Goal,
}
