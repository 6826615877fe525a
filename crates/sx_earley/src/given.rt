//! By what items follow.

use crate::opening::Opening;
use crate::shown::Shown;
use crate::table::Table;
use sx_grammar::Grammar;

/// By what items follow: a grammar, what begins its productions, and what the tokens show.
#[derive(Clone, Copy)]
pub(crate) struct Given<'a> {
    pub(crate) grammar: &'a Grammar,
    pub(crate) openings: &'a Table<Opening>,
    pub(crate) shown: &'a [Shown],
}
