//! Where a goal without an answer leads.

/// A goal by its numbers, and the place of its subject in the first goal's subject.
#[derive(Drop)]
pub struct Spot {
    pub(crate) form: u32,
    pub(crate) terms: Vec<usize>,
    pub(crate) path: Vec<usize>,
}

/// Why a goal is stuck, with what was got by its numbers.
#[derive(Drop)]
pub enum Reason {
    NoRule,
    Equal {
        rule: u32,
        premise: usize,
    },
    Mismatch {
        by: Option<(u32, usize)>,
        got: Vec<usize>,
    },
}

/// The goal is stuck, or so is a premise's goal that has an answer; or a premise's goal without one
/// leads on.
#[derive(Drop)]
pub enum Descent {
    Stuck { spot: Spot, reason: Reason },
    Below(Spot),
}
