//! What is put for the variables of a rule, by number.

use sx_plain::Measure;

/// For each variable of a rule how deep and how big the term is that is put for it, and its
/// number where it passes no limit.
#[derive(Drop)]
pub(crate) struct PutNumbers {
    pub numbers: Vec<usize>,
    pub measures: Vec<Measure>,
}
