//! What the rows before the rules state.

ghost use Rattle.std.specs.Prelude.{◌≡◌, ◌+◌, ◌<◌, ◌↔◌, IsTrue};
ghost use Rattle.std.specs.Prelude.{MatchOption, MatchResult, map};
ghost use Rattle.sx_term.specs.Shapes.{shape};
ghost use Rattle.sx_rules.specs.declared.rule.Place.{Place as PlaceOf};
ghost use Rattle.sx_rules.specs.Views.{form, is_sub};
ghost use Rattle.sx_core.specs.Stated as spec;
ghost use Rattle.sx_core.specs.Stated.{MayHave, MayHaveSort, AreStatedPlaces};
ghost use Rattle.sx_term.specs.Untyped.{IsUntypedSort, AreUntypedSorts};
ghost use Rattle.sx_core.specs.Rows.{con_row, place_row, form_row};
ghost use Rattle.sx_core.specs.Resolving.{rows_in, IsSortTable, NoCoreRowIs, IsConOf, IsPlaceOf};
ghost use Rattle.sx_core.specs.Resolving.{IsFormOf};

use crate::rows::{ConRow, FormRow, PlaceRow};
use crate::sort_table::SortTable;
use crate::terms_row::RowError;
use std::alloc::Global;
use sx_rules::{Form, Place};
use sx_term::{Con, Role, Sort};

/// Whether the sort is lexical or plain.
fn is_untyped(sort: Sort) -> bool
    ensures { IsTrue result ↔ IsUntypedSort sort }
{
    match sort {
        Sort::Lex(_) => true,
        Sort::Plain(_) => true,
        Sort::Typed(_) => false,
    }
}

/// Whether each sort is lexical or plain.
fn are_untyped(sorts: &[Sort]) -> bool
    ensures { IsTrue result ↔ AreUntypedSorts sorts.now }
{
    for i in 0..sorts.len() {
        if !is_untyped(sorts[i]) {
            return false;
        }
    }
    true
}

/// Whether a constructor of the sort may have these parts.
fn may_have(sort: Sort, kids: &[Sort]) -> bool
    ensures { IsTrue result ↔ MayHave sort kids.now }
{
    match sort {
        Sort::Lex(_) => false,
        Sort::Plain(_) => are_untyped(kids),
        Sort::Typed(_) => true,
    }
}

/// Whether a place of the role may have the sort.
fn may_stand(role: Role, sort: Sort) -> bool
    ensures { IsTrue result ↔ MayHaveSort role sort }
{
    match role {
        Role::In => is_untyped(sort),
        Role::Sub => !is_untyped(sort),
        Role::Out => is_untyped(sort),
    }
}

/// The constructor that a row states.
pub(crate) fn make_con(alloc: Global, table: &SortTable, row: &ConRow) -> Result<Con, RowError>
    requires { IsSortTable table.now }
    ensures { MatchResult result (λ c. IsConOf (rows_in table.now) (con_row row.now) (shape c))
        (λ e. NoCoreRowIs (IsConOf (rows_in table.now) (con_row row.now)) e) }
{
    match table.sort(&row.sort) {
        Some(sort) => match table.sorts(alloc, &row.kids) {
            Ok(kids) => {
                if may_have(sort, &kids) {
                    return Ok(Con { sort, kids });
                }
                Err(RowError::Shape)
            }
            Err(e) => Err(e),
        },
        None => Err(RowError::Shape),
    }
}

/// The place that a row states.
fn make_place(table: &SortTable, row: &PlaceRow) -> Option<Place>
    requires { IsSortTable table.now }
    ensures { MatchOption result ((place : PlaceOf) →
        IsPlaceOf (rows_in table.now) (place_row row.now) place → ⊥)
        (λ place. IsPlaceOf (rows_in table.now) (place_row row.now) place) }
{
    match table.sort(&row.sort) {
        Some(sort) => {
            if may_stand(row.role, sort) {
                return Some(Place {
                    role: row.role,
                    sort,
                });
            }
            None
        }
        None => None,
    }
}

/// The places that the rows state.
fn make_places(alloc: Global, table: &SortTable, rows: &[PlaceRow]) -> Result<Vec<Place>, RowError>
    requires { IsSortTable table.now }
    ensures { MatchResult result (λ places. AreStatedPlaces (rows_in table.now)
        (map place_row rows.now) places.items)
        (λ e. NoCoreRowIs (AreStatedPlaces (rows_in table.now) (map place_row rows.now)) e) }
{
    let mut places = Vec::new(alloc);
    for i in 0..rows.len() {
        match make_place(table, &rows[i]) {
            Some(place) => places.push(place)?,
            None => return Err(RowError::Shape),
        }
    }
    Ok(places)
}

/// 1 for a subject, 0 for another role.
fn one_if_subject(role: Role) -> usize
    ensures { result ≡ spec.subject_count_when (is_sub role) }
{
    match role {
        Role::Sub => 1,
        Role::In => 0,
        Role::Out => 0,
    }
}

/// How many of the places are subjects.
pub(crate) fn subject_count(places: &[Place]) -> usize
    ensures { result ≡ spec.subject_count places.now }
{
    let mut count = 0;
    for i in 0..places.len() {
        count += one_if_subject(places[i].role);
    }
    count
}

/// The form that a row states.
pub(crate) fn make_form(alloc: Global, table: &SortTable, row: &FormRow) -> Result<Form, RowError>
    requires { IsSortTable table.now }
    ensures { MatchResult result (λ f. IsFormOf (rows_in table.now) (form_row row.now) (form f))
        (λ e. NoCoreRowIs (IsFormOf (rows_in table.now) (form_row row.now)) e) }
{
    match make_places(alloc, table, &row.places) {
        Ok(places) => {
            if subject_count(&places) > 1 {
                return Err(RowError::Shape);
            }
            Ok(Form {
                name: row.name.copy(alloc)?,
                places,
            })
        }
        Err(e) => Err(e),
    }
}
