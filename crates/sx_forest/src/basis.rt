//! What spans are counted from.

use crate::entries::Entries;
use sx_earley::Shown;
use sx_grammar::Grammar;

/// What spans are counted from: a grammar, what is shown, and the entries of the spans before.
#[derive(Clone, Copy)]
pub(crate) struct Basis<'a> {
    pub(crate) grammar: &'a Grammar,
    pub(crate) shown: &'a [Shown],
    pub(crate) table: &'a Entries,
}
