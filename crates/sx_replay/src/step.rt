//! Steps of the checker.

/// What comes of an entry or of outputs: nothing fits, outputs, or a new goal.
#[derive(Drop)]
pub enum Step {
    Clash,
    Done(Vec<usize>),
    Asks { form: u32, terms: Vec<usize> },
}
