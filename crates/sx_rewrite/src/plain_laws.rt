//! What holds of plain rules.

ghost use Rattle.sx_rewrite.specs.PlainLaws.{PlainRulesAreAccepted, PlainRulesLowerAlike};

/// The base rules with the plain rules are an accepted set.
pub fn plain_rules_are_accepted()
    ensures { PlainRulesAreAccepted }
{}

/// What is lowered by the rules of a set is lowered to the same by its plain rules.
pub fn plain_rules_lower_alike()
    ensures { PlainRulesLowerAlike }
{}
