//! Lists of lowered derivations.

use sx_rules::Entry;

/// The entries of a lowered derivation in preorder, and how many nodes are copied where it
/// is made in boxes, or the greatest u64 where they are more.
#[derive(Drop)]
pub struct LoweredList {
    pub entries: Vec<Entry>,
    pub copied: u64,
}
