//! The table of all readings.

use crate::entries::Entries;
use sx_earley::Shown;
use sx_grammar::Grammar;

/// What readings are built from: the table of what is shown, by a grammar, for the sort with this
/// number.
#[derive(Clone, Copy)]
pub(crate) struct Forest<'a> {
    pub(crate) grammar: &'a Grammar,
    pub(crate) shown: &'a [Shown],
    pub(crate) table: &'a Entries,
    pub(crate) start: u32,
}
