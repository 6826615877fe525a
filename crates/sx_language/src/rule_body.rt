//! Reading the body of a rule.

ghost use Rattle.std.specs.Prelude.{◌≡◌, ◌+◌, ◌<◌, ◌≤◌, ◌^◌, length, option_map, IfSome, IfOk};
ghost use Rattle.std.specs.Prelude.{IfErr, get_or};
ghost use Rattle.std.specs.List.{find};
ghost use Rattle.sx_term.specs.Term.{tree};
ghost use Rattle.sx_rules.specs.Views as view;
ghost use Rattle.sx_rules.specs.Views.{is_sub};
ghost use Rattle.sx_outline.specs.Stages.{rule_data};
ghost use Rattle.sx_language.specs.RuleLine.{subject_sort, CanReadRules};
ghost use Rattle.sx_language.specs.RuleTexts.{IsRuleBody, IsBadBody, OrMemory};
ghost use Rattle.sx_language.specs.Readers.{reader, AreReaderTables};
ghost use Rattle.sx_term.specs.Limits.{most_bytes, most_tokens};

use crate::rule_line::line_term;
use crate::rule_reader::RuleReader;
use std::alloc::Global;
use sx_notation::{LineReader, NotationError};
use sx_outline::RuleLines;
use sx_rules::{Form, Place};
use sx_term::{Role, Sort, Term, Vars};

/// Whether the role is that of a subject.
fn is_subject(role: Role) -> bool
    ensures { result ≡ is_sub role }
{
    match role {
        Role::Sub => true,
        Role::In | Role::Out => false,
    }
}

/// The place with this number.
fn place_at(places: &[Place], number: usize) -> Place
    requires { number < length places.now }
    ensures { result ≡ get_or places.now number result }
{
    places[number]
}

/// The sort of the subject among the places, if one is there.
fn subject_among(places: &[Place]) -> Option<Sort>
    ensures { result ≡ option_map (λ p. p.sort) (find (λ p. is_sub p.role) places.now) }
{
    for i in 0..places.len() {
        let place = place_at(places, i);
        if is_subject(place.role) {
            return Some(place.sort);
        }
    }
    None
}

/// The sort of the subject of the form with this number, if it has one.
fn subject_sort(forms: &[Form], form: u32) -> Option<Sort>
    ensures { result ≡ subject_sort (view.forms forms.now) form }
{
    match forms.get(form as usize) {
        Some(form) => subject_among(&form.places),
        None => None,
    }
}

/// The body that the lines state, where the form of the conclusion has a subject and the body's
/// line is there. Names of variables that `vars` lacks are added.
pub(crate) fn read_body(
    alloc: Global,
    by: &RuleReader,
    tables: &LineReader,
    form: u32,
    lines: &RuleLines,
    vars: &mut Vars,
) -> Result<Option<Term>, NotationError>
    requires can { CanReadRules (reader by.now) }
    requires tables { AreReaderTables (reader by.now) tables.now }
    requires short { IfSome (rule_data lines.now).body (λ l. length l.text ≤ most_bytes) }
    requires room { length vars.now + most_tokens < 2 ^ 32 }
    ensures read { IfOk result (λ b. IsRuleBody (reader by.now) (rule_data lines.now).body
        (subject_sort (reader by.now).forms form) vars.old vars.new (option_map tree b)) }
    ensures refused { IfErr result (OrMemory (IsBadBody (reader by.now) (rule_data lines.now).body
        (subject_sort (reader by.now).forms form))) }
    ensures grows { length vars.new ≤ length vars.old + most_tokens }
{
    match &lines.body {
        None => Ok(None),
        Some(line) => match subject_sort(by.forms, form) {
            None => Ok(None),
            Some(sort) => match line_term(alloc, by, tables, sort, line, vars) {
                Ok(term) => Ok(Some(term)),
                Err(error) => Err(error),
            },
        },
    }
}
