//! What holds of what is counted of lowered derivations.

ghost use Rattle.sx_rewrite.specs.SizeLaws.{DerivationsFit, PlainRulesCountAlike};

/// A derivation by the extended rules has the kids that they ask for.
pub fn derivations_fit()
    ensures { DerivationsFit }
{}

/// What is counted of a derivation by the plain rules
/// is what is counted of it by the extended rules.
pub fn plain_rules_count_alike()
    ensures { PlainRulesCountAlike }
{}
