//! Entries of the table.

use crate::ways::Ways;
use sx_grammar::Head;

/// What reads a part: a metavariable of the sort with this number, or a head.
#[derive(Clone, Copy, PartialEq, Eq)]
pub(crate) enum Maker {
    Variable(u32),
    By(Head),
}

/// What reads the tokens from some place up to this end, and in how many ways.
#[derive(Clone, Copy)]
pub(crate) struct Entry {
    pub(crate) maker: Maker,
    pub(crate) to: u32,
    pub(crate) ways: Ways,
}
