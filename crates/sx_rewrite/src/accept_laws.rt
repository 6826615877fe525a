//! What holds of extension rules that are checked, and of accepted sets.

ghost use Rattle.sx_rewrite.specs.AcceptLaws.{CertificatesHold, StoredIsSound, RejectedIsUnsound};
ghost use Rattle.sx_rewrite.specs.AcceptLaws.{FlatFormsAreSorted, SoundRulesAreSorted};
ghost use Rattle.sx_rewrite.specs.AcceptLaws.{BaseRulesAreAccepted, AcceptedSetsGrow, GrowthGoesOn};

/// A certificate holds for all terms that are put for the rule's variables.
pub fn certificates_hold()
    ensures { CertificatesHold }
{}

/// A rule is sound by what is stored of it where it is accepted.
pub fn stored_is_sound()
    ensures { StoredIsSound }
{}

/// A rule that is rejected is not sound.
pub fn rejected_is_unsound()
    ensures { RejectedIsUnsound }
{}

/// The flat premises of a rule that fits are well sorted by the base shapes,
/// and its flat goal is well sorted.
pub fn flat_forms_are_sorted()
    ensures { FlatFormsAreSorted }
{}

/// The flat conclusion of a sound rule is well sorted by the base shapes.
pub fn sound_rules_are_sorted()
    ensures { SoundRulesAreSorted }
{}

/// Base rules alone are an accepted set.
pub fn base_rules_are_accepted()
    ensures { BaseRulesAreAccepted }
{}

/// An accepted set stays one with an extension that fits and is sound after it.
pub fn accepted_sets_grow()
    ensures { AcceptedSetsGrow }
{}

/// What has grown soundly goes on to.
pub fn growth_goes_on()
    ensures { GrowthGoesOn }
{}
