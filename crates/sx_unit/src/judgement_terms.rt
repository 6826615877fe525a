//! The terms of a lowered judgement that are printed.

ghost use Rattle.std.specs.Prelude.{◌≡◌, List, [], ◌∷◌, map, MatchOption};
ghost use Rattle.sx_term.specs.Term.{tree};
ghost use Rattle.sx_term.specs.Tree.{Tree};
ghost use Rattle.sx_rules.specs.Modes.{outputs, outputs_of};
ghost use Rattle.sx_rules.specs.Sets.{forms_in};
ghost use Rattle.sx_rules.specs.SubjectTerms.{output_mask};
ghost use Rattle.sx_rules.specs.Views as views;
ghost use Rattle.sx_rules.specs.Views.{modes_of, subjects_in};
ghost use Rattle.sx_unit.specs.PrintedParts.{printed_of};

use crate::printed_terms::PrintedTerms;
use sx_rules::{Judgement, Place, RuleSet, is_output};
use sx_term::Term;

/// The first term at an output place.
fn output_at<'a>(places: &[Place], terms: &'a [Term]) -> Option<&'a Term>
    ensures { MatchOption result
        (outputs (output_mask places.entry.now) (map tree terms.entry.now) ≡ [])
        (λ t. (rest : List Tree) ×
        (outputs (output_mask places.entry.now) (map tree terms.entry.now) ≡ tree t.now ∷ rest)) }
{
    for i in 0..terms.len() {
        if is_output(places, i) {
            return Some(&terms[i]);
        }
    }
    None
}

/// The subject of the judgement, which has one.
fn subject_of<'a>(rules: &RuleSet, from: &'a Judgement) -> &'a Term
    requires { (t : Tree) ×
        (outputs_of (subjects_in (forms_in rules.now)) (views.judgement from.now) ≡ t ∷ []) }
    ensures { outputs_of (subjects_in (forms_in rules.entry.now)) (views.judgement from.entry.now)
        ≡ tree result.now ∷ [] }
{
    match rules.subject_of(from) {
        Some(term) => term,
        None => unreachable!(),
    }
}

/// The output of the judgement, which has one.
fn output_of<'a>(rules: &RuleSet, from: &'a Judgement) -> &'a Term
    requires { (t : Tree) ×
        (outputs_of (modes_of (forms_in rules.now)) (views.judgement from.now) ≡ t ∷ []) }
    ensures { outputs_of (modes_of (forms_in rules.entry.now)) (views.judgement from.entry.now)
        ≡ tree result.now ∷ [] }
{
    match output_at(rules.places_of(from.form), &from.places) {
        Some(term) => term,
        None => unreachable!(),
    }
}

/// The terms that are printed of a lowered judgement with one subject and one output, and of a
/// stated signature.
pub(crate) fn printed_terms<'a>(
    rules: &RuleSet,
    from: &'a Judgement,
    stated: &'a Term,
) -> PrintedTerms<'a>
    requires subject { (t : Tree) ×
        (outputs_of (subjects_in (forms_in rules.now)) (views.judgement from.now) ≡ t ∷ []) }
    requires output { (t : Tree) ×
        (outputs_of (modes_of (forms_in rules.now)) (views.judgement from.now) ≡ t ∷ []) }
    ensures subject { outputs_of (subjects_in (forms_in rules.entry.now))
        (views.judgement from.entry.now) ≡ (printed_of result).subject ∷ [] }
    ensures output { outputs_of (modes_of (forms_in rules.entry.now))
        (views.judgement from.entry.now) ≡ (printed_of result).signature ∷ [] }
    ensures stated { (printed_of result).stated ≡ tree stated.entry.now }
{
    PrintedTerms {
        subject: subject_of(rules, from),
        signature: output_of(rules, from),
        stated,
    }
}
