//! What holds of rules that are checked.

ghost use Rattle.sx_extcheck.specs.Agree.{OneOutcomeIsDue};
ghost use Rattle.sx_extcheck.specs.Laws.{CheckedRulesAreStored, RejectedRulesAreUnsound};
ghost use Rattle.sx_extcheck.specs.Laws.{AddedRulesAreSound};

/// What is stored of a rule is a first derivation, or what a first derivation is lowered to.
pub fn checked_rules_are_stored()
    ensures { CheckedRulesAreStored }
{}

/// Where an extension that fits is added, each of its rules, with its body, is sound after the set.
pub fn added_rules_are_sound()
    ensures { AddedRulesAreSound }
{}

/// A rule that is rejected is sound by nothing.
pub fn rejected_rules_are_unsound()
    ensures { RejectedRulesAreUnsound }
{}

/// Two outcomes for the same set, shapes, extension and budgets agree, out of memory aside.
pub fn one_outcome_is_due()
    ensures { OneOutcomeIsDue }
{}
