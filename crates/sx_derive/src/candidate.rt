//! A rule that is tried for a goal.

use sx_rules::Rule;

/// A rule with its number, and the chain of bindings under which its inputs are a goal's.
#[derive(Clone, Copy)]
pub(crate) struct Candidate<'a> {
    pub(crate) rule: &'a Rule,
    pub(crate) number: u32,
    pub(crate) env: usize,
}
