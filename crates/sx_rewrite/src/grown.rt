//! Rules and their plain rules.

use sx_rules::RuleSet;

/// The extended rules of an accepted set, and its plain rules.
#[derive(Drop)]
pub(crate) struct Grown {
    pub rules: RuleSet,
    pub plain_rules: RuleSet,
}
