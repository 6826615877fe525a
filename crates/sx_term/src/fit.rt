//! What matching answers.

/// Whether a pattern's instance can be the term.
#[derive(Clone, Copy, PartialEq, Eq, Debug)]
pub enum Fit {
    /// Under the extended bindings the pattern's instance is the term.
    Matched,
    /// No extension of the bindings makes the pattern's instance the term.
    Clash,
}
