//! Goals of a walk.

/// How many levels may stand below the goal of a derivation, which has at most 3,000.
pub(crate) const LEVELS_BELOW: usize = sx_rules::MOST_LEVELS as usize - 1;

/// A goal by its form and the numbers of its terms, and how many levels may stand below it.
#[derive(Drop)]
pub(crate) struct NumberedGoal {
    pub(crate) form: u32,
    pub(crate) terms: Vec<usize>,
    pub(crate) levels: usize,
}
