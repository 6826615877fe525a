//! Derivations in lists, by rules and from hypotheses.

use crate::listing::Listing;
use sx_rules::{Hyps, RuleSet};

/// The entries of a derivation with their ends, the extended rules or the plain rules of the set by
/// which it is, and the hypotheses that it is from.
#[derive(Clone, Copy)]
pub(crate) struct Reading<'a, 'b> {
    pub listing: Listing<'a>,
    pub rules: &'a RuleSet,
    pub given: &'b Hyps,
}
