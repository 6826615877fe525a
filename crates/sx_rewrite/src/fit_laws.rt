//! Which derivations can be rewritten.

ghost use Rattle.sx_rewrite.specs.FitLaws.{DerivationsHaveFitTerms, FoundCanBeRewritten};

/// The terms of a derivation of a well sorted goal have as many parts as the table asks for.
pub fn derivations_have_fit_terms()
    ensures { DerivationsHaveFitTerms }
{}

/// A derivation of a well sorted goal can be rewritten, if it is no deeper than 3,000
/// and its terms than 1,000.
pub fn found_can_be_rewritten()
    ensures { FoundCanBeRewritten }
{}
