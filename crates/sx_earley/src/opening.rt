//! What begins productions.

use sx_grammar::{Head, NumberedSymbol};

/// A head that makes a sort, the level of its production, and the first symbol of that.
#[derive(Clone, Copy)]
pub(crate) struct Opening {
    pub(crate) head: Head,
    pub(crate) level: u8,
    pub(crate) first: Option<NumberedSymbol>,
}
