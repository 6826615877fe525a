//! Expanded derivations.

use sx_rules::{Entry, Judgement};

/// A derivation by base rules alone, as the list of its entries in preorder, the judgement that it
/// derives, and how many nodes are copied where it is made in boxes, or the greatest u64 where
/// they are more.
#[derive(Drop)]
pub struct Expanded {
    pub entries: Vec<Entry>,
    pub judgement: Judgement,
    pub copied: u64,
}
