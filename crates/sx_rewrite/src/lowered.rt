//! Lowered derivations.

use sx_rules::{Judgement, Proof};

/// A derivation by base rules alone, the judgement that it derives, and how many nodes were copied
/// for it. The number of copied nodes stays at the greatest u64 where it would pass it.
#[derive(Drop)]
pub struct Lowered {
    pub proof: Box<Proof>,
    pub judgement: Judgement,
    pub copied: u64,
}
