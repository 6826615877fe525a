//! What derivations are lowered by.

use crate::accepted::Accepted;
use sx_rules::{Hyps, RuleSet};

/// An accepted set, its extended rules or its plain rules, and the hypotheses.
#[derive(Clone, Copy)]
pub(crate) struct Source<'a> {
    pub set: &'a Accepted,
    pub rules: &'a RuleSet,
    pub given: &'a Hyps,
}
