//! How big lowered derivations are.

/// How many nodes a lowered derivation has, how deep it is, and how many nodes are copied
/// for it. The last stays at the greatest u64 where it would pass it.
#[derive(Clone, Copy)]
pub struct LoweredSize {
    pub nodes: u64,
    pub height: u64,
    pub copied: u64,
}
