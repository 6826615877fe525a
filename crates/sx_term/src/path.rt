//! Ways to the parts of a term.

/// The way from a term to one of its parts: for each step down the number of a kid, from 0. No
/// steps lead to the term itself.
#[derive(Drop)]
pub struct Path {
    pub steps: Vec<usize>,
}
