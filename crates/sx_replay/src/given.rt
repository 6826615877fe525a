//! What a derivation is replayed from.

use std::alloc::Global;
use sx_arena::{Fact, Pair};
use sx_rules::RuleSet;

/// Where memory is taken from, the rules, and the hypotheses by the numbers of their terms.
#[derive(Clone, Copy)]
pub(crate) struct Given<'a> {
    pub(crate) alloc: Global,
    pub(crate) rules: &'a RuleSet,
    pub(crate) facts: &'a [Fact],
    pub(crate) pairs: &'a [Pair],
}
