//! Reading the lines before the rules.

ghost use Rattle.std.specs.Prelude.{◌++◌, codes, map, MatchOption, MatchResult};
ghost use Rattle.sx_core.specs.File.{sort_line, con_line, form_line};
ghost use Rattle.sx_core.specs.Rows.{sort_row, con_row, place_row, form_row, IsDeclarationLine};
ghost use Rattle.sx_core.specs.Rows.{NoRow};
ghost use Rattle.sx_core.specs.Rows.{IsRoleRead, NoRole, IsPlaceWord, NoPlaceWord, IsKind, NoKind};
ghost use Rattle.sx_core.specs.Rows.{IsPlaceRead, PlaceRefused, ArePlacesRead, PlacesRefused};

use crate::rows::{ConRow, FormRow, PlaceRow, SortRow};
use crate::terms_row::RowError;
use crate::words::{after_front, name_of, next_word, read_name, read_names};
use std::alloc::Global;
use sx_term::Role;

/// The role at the front of a place's text, and what follows it.
fn split_role<'a>(word: &'a [u8]) -> Option<(Role, &'a [u8])>
    ensures { MatchOption result (NoRole word.entry.now)
        (λ x. IsRoleRead word.entry.now x.0 x.1.now) }
{
    if let Some(sort) = after_front(word, b"in:") {
        return Some((Role::In, sort));
    }
    if let Some(sort) = after_front(word, b"sub:") {
        return Some((Role::Sub, sort));
    }
    if let Some(sort) = after_front(word, b"out:") {
        return Some((Role::Out, sort));
    }
    None
}

/// The place that a word is.
fn place_of(alloc: Global, word: &[u8]) -> Result<PlaceRow, RowError>
    ensures { MatchResult result (λ row. IsPlaceWord word.now (place_row row))
        (λ e. NoPlaceWord word.now e) }
{
    match split_role(word) {
        Some((role, rest)) => match name_of(alloc, rest) {
            Ok(sort) => Ok(PlaceRow { role, sort }),
            Err(e) => Err(e),
        },
        None => Err(RowError::Shape),
    }
}

/// The place after one blank, and what is left.
fn read_place<'a>(alloc: Global, text: &'a [u8]) -> Result<(PlaceRow, &'a [u8]), RowError>
    ensures { MatchResult result (λ x. IsPlaceRead text.entry.now (place_row x.0) x.1.now)
        (λ e. PlaceRefused text.entry.now e) }
{
    match next_word(text) {
        Some((word, rest)) => match place_of(alloc, word) {
            Ok(place) => Ok((place, rest)),
            Err(e) => Err(e),
        },
        None => Err(RowError::Shape),
    }
}

/// The places that the rest of a line consists of, each after one blank.
fn read_places(alloc: Global, text: &[u8]) -> Result<Vec<PlaceRow>, RowError>
    ensures { MatchResult result (λ rows. ArePlacesRead text.now (map place_row rows.items))
        (λ e. PlacesRefused text.now e) }
{
    let mut places = Vec::new(alloc);
    let mut left = text;
    while !left.is_empty() {
        match read_place(alloc, left) {
            Ok((place, rest)) => {
                places.push(place)?;
                left = rest;
            }
            Err(e) => return Err(e),
        }
    }
    Ok(places)
}

/// Whether a sort is typed.
fn kind_of(text: &[u8]) -> Option<bool>
    ensures { MatchOption result (NoKind text.now) (λ typed. IsKind text.now typed) }
{
    if text == b" typed".as_slice() {
        return Some(true);
    }
    if text == b" plain".as_slice() {
        return Some(false);
    }
    None
}

/// The row of a sort, after its first word.
pub(crate) fn read_sort(alloc: Global, text: &[u8]) -> Result<SortRow, RowError>
    ensures { MatchResult result (λ row. IsDeclarationLine (codes "sort" ++ text.now)
        (sort_line (sort_row row))) (λ e. NoRow sort_line (codes "sort") text.now e) }
{
    match read_name(alloc, text) {
        Ok((name, rest)) => match kind_of(rest) {
            Some(typed) => Ok(SortRow { name, typed }),
            None => Err(RowError::Shape),
        },
        Err(e) => Err(e),
    }
}

/// The row of a constructor, after its first word.
pub(crate) fn read_con(alloc: Global, text: &[u8]) -> Result<ConRow, RowError>
    ensures { MatchResult result (λ row. IsDeclarationLine (codes "con" ++ text.now)
        (con_line (con_row row))) (λ e. NoRow con_line (codes "con") text.now e) }
{
    match read_name(alloc, text) {
        Ok((name, rest)) => match read_name(alloc, rest) {
            Ok((sort, rest)) => match read_names(alloc, rest) {
                Ok(kids) => Ok(ConRow { name, sort, kids }),
                Err(e) => {
                    drop(sort);
                    drop(name);
                    Err(e)
                }
            },
            Err(e) => {
                drop(name);
                Err(e)
            }
        },
        Err(e) => Err(e),
    }
}

/// The row of a form, after its first word.
pub(crate) fn read_form(alloc: Global, text: &[u8]) -> Result<FormRow, RowError>
    ensures { MatchResult result (λ row. IsDeclarationLine (codes "form" ++ text.now)
        (form_line (form_row row))) (λ e. NoRow form_line (codes "form") text.now e) }
{
    match read_name(alloc, text) {
        Ok((name, rest)) => match read_places(alloc, rest) {
            Ok(places) => Ok(FormRow { name, places }),
            Err(e) => Err(e),
        },
        Err(e) => Err(e),
    }
}
