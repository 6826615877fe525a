//! Places of forms, and the terms at the subject places of judgements.

ghost use Rattle.std.specs.Prelude.{◌≡◌, false, MatchOption, List, [], ◌∷◌, map, get_or};
ghost use Rattle.sx_term.specs.Tree.{Tree};
ghost use Rattle.sx_term.specs.Term.{tree};
ghost use Rattle.sx_rules.specs.Modes.{outputs};
ghost use Rattle.sx_rules.specs.Discipline.{subjects_of};
ghost use Rattle.sx_rules.specs.Sets.{forms_in};
ghost use Rattle.sx_rules.specs.SubjectTerms.{output_mask, subject_mask};
ghost use Rattle.sx_rules.specs.Views.{judgement, subjects_in, places_at};

use crate::chosen::places_of;
use crate::rule::{Judgement, Place};
use crate::rule_set::RuleSet;
use sx_term::{Role, Term};

impl RuleSet {
    /// The places of the form with this number; none where there is no such form.
    pub fn places_of(&self, form: u32) -> &[Place]
        ensures mask { subject_mask result.now ≡ subjects_in (forms_in self.now) form }
        ensures places { result.now ≡ places_at (forms_in self.now) form }
    {
        places_of(&self.forms, form)
    }

    /// The first term at a subject place of the judgement, or None where there is none.
    pub fn subject_of<'a>(&self, from: &'a Judgement) -> Option<&'a Term>
        ensures { MatchOption result
            (subjects_of (subjects_in (forms_in self.entry.now)) (judgement from.entry.now) ≡ [])
            (λ t. (rest : List Tree)
            × (subjects_of (subjects_in (forms_in self.entry.now)) (judgement from.entry.now)
            ≡ tree t.now ∷ rest)) }
    {
        subject_at(self.places_of(from.form), &from.places)
    }
}

/// Whether the place is a subject.
pub fn is_subject(places: &[Place], place: usize) -> bool
    ensures { result ≡ get_or (subject_mask places.now) place false }
{
    match places.get(place) {
        Some(it) => matches!(it.role, Role::Sub),
        None => false,
    }
}

/// Whether the place is an output.
pub fn is_output(places: &[Place], place: usize) -> bool
    ensures { result ≡ get_or (output_mask places.now) place false }
{
    match places.get(place) {
        Some(it) => matches!(it.role, Role::Out),
        None => false,
    }
}

/// The first term at a subject place.
fn subject_at<'a>(places: &[Place], terms: &'a [Term]) -> Option<&'a Term>
    ensures { MatchOption result
        (outputs (subject_mask places.entry.now) (map tree terms.entry.now) ≡ [])
        (λ t. (rest : List Tree)
        × (outputs (subject_mask places.entry.now) (map tree terms.entry.now)
        ≡ tree t.now ∷ rest)) }
{
    for i in 0..terms.len() {
        if is_subject(places, i) {
            return Some(&terms[i]);
        }
    }
    None
}
