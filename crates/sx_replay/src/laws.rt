//! Laws of fronts and answers.

ghost use Rattle.sx_replay.specs.Laws.{FrontsAreAlone, BeginningsAreWithin, DerivationsAreReplayed};
ghost use Rattle.sx_replay.specs.Laws.{OneAnswerIsDue};

/// A list is that of one derivation at most, begun or whole.
pub fn fronts_are_alone()
    ensures { FrontsAreAlone }
{}

/// Each beginning of a list within the limits is that of a derivation within the limits that has
/// goals left.
pub fn beginnings_are_within()
    ensures { BeginningsAreWithin }
{}

/// The list of a derivation within the limits is answered with the outputs of that derivation.
pub fn derivations_are_replayed()
    ensures { DerivationsAreReplayed }
{}

/// A list has one answer, out of memory aside.
pub fn one_answer_is_due()
    ensures { OneAnswerIsDue }
{}
