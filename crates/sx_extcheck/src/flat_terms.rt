//! The terms of a rule that are measured before it is checked.

ghost use Rattle.std.specs.Prelude.{◌∷◌, [], map, option_map};
ghost use Rattle.std.specs.List.{AllByRecursion};
ghost use Rattle.sx_term.specs.Term.{tree};
ghost use Rattle.sx_rules.specs.Sets.{forms_in};
ghost use Rattle.sx_rules.specs.Views.{premise, subjects_in};
ghost use Rattle.sx_plain.specs.Plain.{image};
ghost use Rattle.sx_plain.specs.Views.{table_of};
ghost use Rattle.sx_rewrite.specs.ExtensionView.{ext_rule};
ghost use Rattle.sx_rewrite.specs.PlainRules.{image_premise};
ghost use Rattle.sx_rewrite.specs.Puts.{Answers};
ghost use Rattle.sx_rewrite.specs.Rewriting.{first_over};
ghost use Rattle.sx_rules.specs.SubjectTerms.{subject_mask};
ghost use Rattle.sx_extcheck.specs.FlatTerms.{
  premise_terms,
  listed_term,
  flat_terms,
  picked,
  CanMeasure,
  PremiseCanMeasure,
  RuleCanMeasure,
};

use sx_plain::{PlainTable, image_measure};
use sx_rewrite::{ExtRule, RewriteError, check_measure};
use sx_rules::{Place, Premise, RuleSet, is_subject};
use sx_term::Term;

/// Measures the terms of the rule with plain images: its premises in order, the places of its
/// conclusion that are no subjects, the body, and the subject of its conclusion. The first that
/// is deeper than 1,000, or else has more than 1,000,000 nodes, is refused.
pub(crate) fn measure_rule(
    set: &RuleSet,
    plain: &PlainTable,
    ext: &ExtRule,
) -> Result<(), RewriteError>
    requires { RuleCanMeasure (table_of plain.now) (ext_rule ext.now) }
    ensures { Answers (first_over
        (flat_terms (table_of plain.now) (subjects_in (forms_in set.now)) (ext_rule ext.now)))
        (λ _. Unit {0}) result }
{
    let conclusion = &ext.rule.conclusion;
    let places = set.places_of(conclusion.form);
    measure_premises(plain, &ext.rule.premises)?;
    measure_places(plain, places, &conclusion.places, false)?;
    measure_body(plain, &ext.body)?;
    measure_places(plain, places, &conclusion.places, true)
}

/// Measures the terms of the premises with plain images.
fn measure_premises(plain: &PlainTable, premises: &[Premise]) -> Result<(), RewriteError>
    requires { AllByRecursion (PremiseCanMeasure (table_of plain.now)) (map premise premises.now) }
    ensures { Answers (first_over
        (premise_terms (map (image_premise (table_of plain.now)) (map premise premises.now))))
        (λ _. Unit {0}) result }
{
    for premise in premises {
        measure_premise(plain, premise)?;
    }
    Ok(())
}

/// Measures the terms of the premise with plain images.
fn measure_premise(plain: &PlainTable, from: &Premise) -> Result<(), RewriteError>
    requires { PremiseCanMeasure (table_of plain.now) (premise from.now) }
    ensures { Answers (first_over
        (premise_terms (image_premise (table_of plain.now) (premise from.now) ∷ [])))
        (λ _. Unit {0}) result }
{
    match from {
        Premise::Holds(it) => measure_terms(plain, &it.places),
        Premise::Apart(left, right) => {
            measure_term(plain, left)?;
            measure_term(plain, right)
        }
    }
}

/// Measures the plain image of the body, where there is one.
fn measure_body(plain: &PlainTable, body: &Option<Term>) -> Result<(), RewriteError>
    requires { AllByRecursion (CanMeasure (table_of plain.now))
        (listed_term (option_map tree body.now)) }
    ensures { Answers (first_over
        (listed_term (option_map (image (table_of plain.now)) (option_map tree body.now))))
        (λ _. Unit {0}) result }
{
    match body {
        Some(term) => measure_term(plain, term),
        None => Ok(()),
    }
}

/// Measures the plain images of the terms.
fn measure_terms(plain: &PlainTable, terms: &[Term]) -> Result<(), RewriteError>
    requires { AllByRecursion (CanMeasure (table_of plain.now)) (map tree terms.now) }
    ensures { Answers (first_over (map (image (table_of plain.now)) (map tree terms.now)))
        (λ _. Unit {0}) result }
{
    for term in terms {
        measure_term(plain, term)?;
    }
    Ok(())
}

/// Measures the plain images of the terms at the subject places, or of those at the others.
fn measure_places(
    plain: &PlainTable,
    places: &[Place],
    terms: &[Term],
    subjects: bool,
) -> Result<(), RewriteError>
    requires { AllByRecursion (CanMeasure (table_of plain.now)) (map tree terms.now) }
    ensures { Answers (first_over (picked subjects (subject_mask places.now)
        (map (image (table_of plain.now)) (map tree terms.now))))
        (λ _. Unit {0}) result }
{
    for i in 0..terms.len() {
        if is_subject(places, i) == subjects {
            measure_term(plain, &terms[i])?;
        }
    }
    Ok(())
}

/// Measures the plain image of the term.
fn measure_term(plain: &PlainTable, term: &Term) -> Result<(), RewriteError>
    requires { CanMeasure (table_of plain.now) (tree term.now) }
    ensures { Answers (first_over (image (table_of plain.now) (tree term.now) ∷ []))
        (λ _. Unit {0}) result }
{
    check_measure(image_measure(plain, term))
}
