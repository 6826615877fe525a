//! How far a search for a stuck goal goes.

/// How many levels stand below a goal, and how many tries an answer takes at most.
#[derive(Clone, Copy)]
pub(crate) struct Bounds {
    pub(crate) levels: usize,
    pub(crate) budget: u64,
}
