//! Rules from which numbers follow.

/// A rule: its head follows from all that it needs.
#[derive(Drop)]
pub(crate) struct Rule {
    pub(crate) head: usize,
    pub(crate) needs: Vec<usize>,
}
