//! Checking the bodies of the rules of an extension.

ghost use Rattle.std.specs.Prelude.{◌≤◌, ◌↔◌, IsTrue, Option, IsSome, IfSome, option_map};
ghost use Rattle.std.specs.Prelude.{MatchOption, map};
ghost use Rattle.std.specs.List.{AllByRecursion};
ghost use Rattle.sx_term.specs.declared.sort.Sort.{Sort};
ghost use Rattle.sx_term.specs.Term.{tree};
ghost use Rattle.sx_term.specs.Tree.{depth_of};
ghost use Rattle.sx_term.specs.Shapes.{shapes};
ghost use Rattle.sx_rules.specs.Views as view;
ghost use Rattle.sx_outline.specs.Stages.{numbered_rule_line, rule_data};
ghost use Rattle.sx_language.specs.RuleLine.{subject_sort};
ghost use Rattle.sx_extension.specs.Bodies.{IsReadBody, IsBodied, BodyHasDefect, AreReadBodies};
ghost use Rattle.sx_extension.specs.Bodies.{AreBodied, IsFirstDefect};
ghost use Rattle.sx_term.specs.Limits.{most_depth};

use crate::body_defect::BodyDefect;
use crate::own_syntax::OwnSyntax;
use sx_language::ReadRules;
use sx_outline::{RuleLine, RuleLines};
use sx_rules::{Form, is_subject, places_of};
use sx_term::Term;

/// Whether the form with this number has a subject.
fn has_subject(forms: &[Form], form: u32) -> bool
    ensures { IsTrue result ↔ IsSome (subject_sort (view.forms forms.now) form) }
{
    let places = places_of(forms, form);
    for i in 0..places.len() {
        if is_subject(places, i) {
            return true;
        }
    }
    false
}

/// What is wrong with the body, if anything is: whether the conclusion has a subject, the line
/// that states a body, if one does, and the body that was read.
fn body_defect(
    own: &OwnSyntax,
    has_subject: bool,
    line: &Option<RuleLine>,
    body: &Option<Term>,
) -> Option<BodyDefect>
    requires shallow { IfSome body.now (λ t. depth_of (tree t) ≤ most_depth) }
    ensures { (subject : Option Sort) → (IsTrue has_subject ↔ IsSome subject) →
        IsReadBody subject (option_map numbered_rule_line line.now) (option_map tree body.now) →
        MatchOption result
        (IsBodied (shapes own.now.shapes.now) own.now.first subject
        (option_map numbered_rule_line line.now)
        (option_map tree body.now))
        (BodyHasDefect (shapes own.now.shapes.now) own.now.first subject
        (option_map numbered_rule_line line.now) (option_map tree body.now)) }
{
    if !has_subject {
        return match line {
            Some(_) => Some(BodyDefect::BodySort),
            None => None,
        };
    }
    match body {
        Some(term) if own.stands_in(term) => Some(BodyDefect::BodyExtended),
        Some(_) => None,
        None => Some(BodyDefect::NoBody),
    }
}

/// The first rule whose body is not as it should be, by its number from 0, and what is wrong with
/// it; or None where each is.
pub(crate) fn first_defect(
    forms: &[Form],
    own: &OwnSyntax,
    lines: &[RuleLines],
    read: &ReadRules,
) -> Option<(usize, BodyDefect)>
    requires read { AreReadBodies (view.forms forms.now) (map rule_data lines.now)
        (map view.named read.now.rules.items) (map (option_map tree) read.now.bodies.items) }
    requires shallow { AllByRecursion (λ b. IfSome b (λ t. depth_of t ≤ most_depth))
        (map (option_map tree) read.now.bodies.items) }
    ensures { MatchOption result
        (AreBodied (view.forms forms.now) (shapes own.now.shapes.now) own.now.first
        (map rule_data lines.now) (map view.named read.now.rules.items)
        (map (option_map tree) read.now.bodies.items))
        (λ x. IsFirstDefect (view.forms forms.now) (shapes own.now.shapes.now) own.now.first
        (map rule_data lines.now) (map view.named read.now.rules.items)
        (map (option_map tree) read.now.bodies.items) x.0 x.1) }
{
    for i in 0..lines.len() {
        let line = &lines[i];
        let rule = &read.rules[i];
        let body = &read.bodies[i];
        let subject = has_subject(forms, rule.conclusion.form);
        if let Some(defect) = body_defect(own, subject, &line.body, body) {
            return Some((i, defect));
        }
    }
    None
}
