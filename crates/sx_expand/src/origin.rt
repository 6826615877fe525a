//! Where derivations in lists are from.

use sx_rules::{Entry, Hyps, RuleSet};

/// The rules by which a derivation is, the hypotheses that it is from, and its entries in preorder.
#[derive(Clone, Copy)]
pub(crate) struct Origin<'a> {
    pub rules: &'a RuleSet,
    pub given: &'a Hyps,
    pub list: &'a [Entry],
}
