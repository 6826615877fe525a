//! How big proofs are without their givens.

/// How many nodes a proof has and how deep it is, its givens not counted. The
/// number of nodes stays at the greatest u128 where it would pass it.
#[derive(Clone, Copy)]
pub(crate) struct OwnSize {
    pub nodes: u128,
    pub height: u32,
}
