//! From what an entry over a part is chosen.

use crate::entry::Entry;
use crate::row::Row;
use sx_grammar::Grammar;

/// From what an entry over a part is chosen: the entries from a place by a grammar, the sort and
/// the least level of the part, and what is to be read after it.
#[derive(Clone, Copy)]
pub(crate) struct Choice<'a> {
    pub(crate) grammar: &'a Grammar,
    pub(crate) entries: &'a [Entry],
    pub(crate) sort: u32,
    pub(crate) least: u8,
    pub(crate) rest: &'a Row,
}
