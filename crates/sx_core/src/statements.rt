//! Reading the judgements and the goal of a core file.

ghost use Rattle.std.specs.Prelude.{◌≡◌, ◌<◌, ◌↔◌, IsTrue, [], ◌∷◌, ◌++◌};
ghost use Rattle.std.specs.Prelude.{length, drop, Some, None, MatchResult};
ghost use Rattle.std.specs.Prelude.{IfOk, OnOk, map};
ghost use Rattle.sx_term.specs.Term.{tree};
ghost use Rattle.sx_term.specs.Sorts.{HaveSorts};
ghost use Rattle.sx_term.specs.Shapes.{shapes};
ghost use Rattle.sx_rules.specs.Deep.{AreShallow};
ghost use Rattle.sx_rules.specs.Modes.{inputs};
ghost use Rattle.sx_rules.specs.Views.{is_out, judgement, goal, forms, places_at};
ghost use Rattle.sx_core.specs.TermsText.{IsDeepRow, RefusedAs};
ghost use Rattle.sx_core.specs.Statements.{known_in, IsFormTable, IsFormRead, FormRefused};
ghost use Rattle.sx_core.specs.Statements.{IsJudgementRead, IsDeepJudgement, IsInputsRead};
ghost use Rattle.sx_core.specs.Statements.{IsGoalRead, IsDeepGoal};

use crate::form_table::FormTable;
use crate::resolved::subject_count;
use crate::terms_row::{RowError, read_terms};
use crate::words::read_name;
use std::alloc::Global;
use sx_rules::{Goal, Judgement, Place, places_of};
use sx_term::{NoMemory, Role, Shapes, Sort, Term};

/// The form that is named after one blank, and what is left.
fn read_form<'a>(
    alloc: Global,
    table: &FormTable,
    text: &'a [u8],
) -> Result<(u32, &'a [u8]), RowError>
    requires { IsFormTable table.now }
    ensures { MatchResult result (λ x. IsFormRead (known_in table.now) text.entry.now x.0 x.1.now)
        (λ e. FormRefused (known_in table.now) text.entry.now e) }
{
    match read_name(alloc, text) {
        Ok((name, rest)) => match table.names.number(name.bytes()) {
            Some(form) => Ok((form as u32, rest)),
            None => Err(RowError::Shape),
        },
        Err(e) => Err(e),
    }
}

/// The places of the form with this number in the table.
fn places_in<'a>(table: &'a FormTable, form: u32) -> &'a [Place]
    ensures { result.now ≡ places_at (known_in table.entry.now) form }
{
    places_of(&table.forms, form)
}

/// The judgement that the rest of a line states.
pub(crate) fn read_judgement(
    alloc: Global,
    table: &FormTable,
    text: &[u8],
) -> Result<Judgement, RowError>
    requires { IsFormTable table.now }
    ensures { MatchResult result (λ j. IsJudgementRead (known_in table.now) text.now (judgement j))
        (λ e. RefusedAs (IsJudgementRead (known_in table.now) text.now)
        (IsDeepJudgement (known_in table.now) text.now) e) }
{
    match read_form(alloc, table, text) {
        Ok((form, rest)) => match read_terms(alloc, rest, places_in(table, form).len()) {
            Ok(places) => Ok(Judgement { form, places }),
            Err(e) => Err(e),
        },
        Err(e) => Err(e),
    }
}

/// Puts the sort of a place to those before it, where the place is an input.
fn push_input(sorts: &mut Vec<Sort>, place: Place) -> Result<(), NoMemory>
    ensures { OnOk result (sorts.new.items ≡ sorts.old.items
        ++ inputs (is_out place.role ∷ []) (place.sort ∷ [])) }
{
    match place.role {
        Role::Out => {}
        Role::In => sorts.push(place.sort)?,
        Role::Sub => sorts.push(place.sort)?,
    }
    Ok(())
}

/// The sorts of the places that are inputs.
fn sorts_of_inputs(alloc: Global, places: &[Place]) -> Result<Vec<Sort>, NoMemory>
    ensures { IfOk result (λ sorts. sorts.items
        ≡ inputs (map (λ p. is_out p.role) places.now) (map (λ p. p.sort) places.now)) }
{
    let mut sorts = Vec::new(alloc);
    for i in 0..places.len() {
        push_input(&mut sorts, places[i])?;
    }
    Ok(sorts)
}

/// Whether the terms have these sorts, each its own, and no variables.
fn terms_fit(all: &Shapes, terms: &[Term], sorts: &[Sort]) -> bool
    requires { AreShallow (map tree terms.now) }
    ensures { IsTrue result ↔ HaveSorts (shapes all.now) [] (map tree terms.now) sorts.now }
{
    if terms.len() != sorts.len() {
        return false;
    }
    for i in 0..terms.len() {
        if !all.fits(&terms[i], &[], sorts[i]) {
            return false;
        }
    }
    true
}

/// The terms that the rest of a line consists of, of these sorts and without variables.
fn read_inputs(
    alloc: Global,
    all: &Shapes,
    sorts: &[Sort],
    text: &[u8],
) -> Result<Vec<Term>, RowError>
    ensures { MatchResult result (λ terms. IsInputsRead (shapes all.now) sorts.now text.now
        (map tree terms.items)) (λ e. RefusedAs (IsInputsRead (shapes all.now) sorts.now text.now)
        (IsDeepRow text.now (length sorts.now)) e) }
{
    match read_terms(alloc, text, sorts.len()) {
        Ok(terms) => {
            if !terms_fit(all, &terms, sorts) {
                drop(terms);
                return Err(RowError::Shape);
            }
            Ok(terms)
        }
        Err(e) => Err(e),
    }
}

/// The goal that the rest of a line states.
pub(crate) fn read_goal(
    alloc: Global,
    table: &FormTable,
    all: &Shapes,
    text: &[u8],
) -> Result<Goal, RowError>
    requires { IsFormTable table.now }
    ensures { MatchResult result (λ g. IsGoalRead (shapes all.now) (known_in table.now) text.now
        (goal g)) (λ e. RefusedAs (IsGoalRead (shapes all.now) (known_in table.now) text.now)
        (IsDeepGoal (known_in table.now) text.now) e) }
{
    match read_form(alloc, table, text) {
        Ok((form, rest)) => {
            let places = places_in(table, form);
            if subject_count(places) != 1 {
                return Err(RowError::Shape);
            }
            let sorts = sorts_of_inputs(alloc, places)?;
            match read_inputs(alloc, all, &sorts, rest) {
                Ok(inputs) => Ok(Goal { form, inputs }),
                Err(e) => Err(e),
            }
        }
        Err(e) => Err(e),
    }
}
