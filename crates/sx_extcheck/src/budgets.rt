//! Budgets.

/// How many tries the search for each rule may make, and how many nodes the lowered derivation of
/// each may have.
#[derive(Clone, Copy)]
pub struct Budgets {
    pub tries: u64,
    pub nodes: u64,
}
