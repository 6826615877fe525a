//! Derivations that are made.

use sx_rules::Proof;

/// A derivation, and the numbers of the outputs of what it derives.
#[derive(Drop)]
pub(crate) struct Made {
    pub proof: Proof,
    pub outputs: Vec<usize>,
}
