//! What a search answers.

use crate::derived::Derived;

/// What a search comes to.
#[derive(Drop)]
pub enum Found {
    /// The next derivation, and how many tries this call made.
    Next(Derived, u64),
    /// As many tries were made as the budget has, and the search goes on with a try.
    Paused,
    /// No derivation is left.
    Ended,
}
