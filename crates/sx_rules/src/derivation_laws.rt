//! What holds of derivations by any rules.

ghost use Rattle.sx_rules.specs.DerivationLaws.{DerivationsAreSorted, OrderIsUnique};
ghost use Rattle.sx_rules.specs.DerivationLaws.{FirstDerivationIsUnique};
ghost use Rattle.sx_rules.specs.DerivationLaws.{SubstitutionKeepsDerivations, GraftsAreDerivations};
ghost use Rattle.sx_rules.specs.DerivationLaws.{DisciplineSuffices, OutputsHaveTexts};

/// Where rules, hypotheses and the goal are well sorted, each derivation of the goal is well
/// sorted.
pub fn derivations_are_sorted()
    ensures { DerivationsAreSorted }
{}

/// A goal has one derivation at most with a given order, and none whose order goes on from
/// another's.
pub fn order_is_unique()
    ensures { OrderIsUnique }
{}

/// A goal has one first derivation at most.
pub fn first_derivation_is_unique()
    ensures { FirstDerivationIsUnique }
{}

/// A derivation from hypotheses stays one when terms are put for the variables.
pub fn substitution_keeps_derivations()
    ensures { SubstitutionKeepsDerivations }
{}

/// Derivations of the hypotheses may stand in the place of the givens.
pub fn grafts_are_derivations()
    ensures { GraftsAreDerivations }
{}

/// In a well sorted, moded and disciplined rule variables of typed sorts stand in subjects alone,
/// and each is the subject of a premise.
pub fn discipline_suffices()
    ensures { DisciplineSuffices }
{}

/// Where the terms of rules, hypotheses and a goal have core texts, so have the outputs of each
/// derivation of the goal.
pub fn outputs_have_texts()
    ensures { OutputsHaveTexts }
{}
