//! Forms with the sorts of a grammar.

ghost use Rattle.std.specs.Prelude.{◌≡◌, ◌<◌, ◌++◌, map, flat_map, length, true, false, IfOk};
ghost use Rattle.std.specs.Prelude.{MatchOption};
ghost use Rattle.std.specs.List.{AllByRecursion};
ghost use Rattle.sx_grammar.specs.Told as told;
ghost use Rattle.sx_rules.specs.Views as view;
ghost use Rattle.sx_notation.specs.RuleLaws.{spelled_sort, places_of, form_of, IsSpelledSort};
ghost use Rattle.sx_notation.specs.RuleLaws.{HasSortOf};
ghost use Rattle.sx_notation.specs.RuleLaws.{HaveSortsOf};

use std::alloc::Global;
use sx_directives::{FormLine, FormSymbol, SpelledSort};
use sx_grammar::Grammar;
use sx_rules::{Form, Place};
use sx_term::{NoMemory, Sort};

/// The sort with this number, plain or typed as its line says.
pub fn sort_with(grammar: &Grammar, number: u32) -> Sort
    requires { number < length grammar.now.parts.sorts }
    ensures { result ≡ told.sort_with grammar.now.parts.sorts number }
{
    let sorts = &grammar.parts().sorts;
    if sorts[number as usize].typed {
        Sort::Typed(number)
    } else {
        Sort::Plain(number)
    }
}

/// The sort that is spelled, or None where the grammar has no such sort.
fn sort_of(grammar: &Grammar, spelled: &SpelledSort) -> Option<Sort>
    ensures { MatchOption result (¬ (IsSpelledSort grammar.now.parts spelled.now))
        (λ s. IsSpelledSort grammar.now.parts spelled.now ×
        (s ≡ spelled_sort grammar.now.parts spelled.now)) }
{
    grammar.facts();
    match spelled {
        SpelledSort::Lex(kind) => Some(Sort::Lex(*kind)),
        SpelledSort::Named { sort, least: _ } => match grammar.sort_number(sort) {
            Some(number) => Some(sort_with(grammar, number)),
            None => None,
        },
    }
}

/// Adds the place that the symbol is, if it is one. False comes exactly where it is a place of no
/// sort of the grammar.
fn add_place(
    grammar: &Grammar,
    symbol: &FormSymbol,
    into: &mut Vec<Place>,
) -> Result<bool, NoMemory>
    ensures yes { IfOk result (λ b. b ≡ true → HasSortOf grammar.now.parts symbol.now ×
        (into.new.items ≡ into.old.items ++ places_of grammar.now.parts symbol.now)) }
    ensures not { IfOk result (λ b. b ≡ false → ¬ (HasSortOf grammar.now.parts symbol.now)) }
{
    match symbol {
        FormSymbol::Lit(_) => Ok(true),
        FormSymbol::Place { role, sort } => match sort_of(grammar, sort) {
            Some(sort) => {
                into.push(Place { role: *role, sort })?;
                Ok(true)
            }
            None => Ok(false),
        },
    }
}

/// The places among the symbols, or None where one is of no sort of the grammar.
fn places_of(
    alloc: Global,
    grammar: &Grammar,
    symbols: &[FormSymbol],
) -> Result<Option<Vec<Place>>, NoMemory>
    ensures { IfOk result (λ o.
        MatchOption o (¬ (AllByRecursion (HasSortOf grammar.now.parts) symbols.now))
        (λ v. AllByRecursion (HasSortOf grammar.now.parts) symbols.now ×
        (v.items ≡ flat_map (places_of grammar.now.parts) symbols.now))) }
{
    let mut places = Vec::new(alloc);
    for i in 0..symbols.len() {
        let symbol = &symbols[i];
        if !add_place(grammar, symbol, &mut places)? {
            return Ok(None);
        }
    }
    Ok(Some(places))
}

/// The form that the line spells, or None where a place is of no sort of the grammar.
fn form_of(alloc: Global, grammar: &Grammar, line: &FormLine) -> Result<Option<Form>, NoMemory>
    ensures { IfOk result (λ o.
        MatchOption o (¬ (AllByRecursion (HasSortOf grammar.now.parts) line.now.symbols.items))
        (λ f. AllByRecursion (HasSortOf grammar.now.parts) line.now.symbols.items ×
        (view.form f ≡ form_of grammar.now.parts line.now))) }
{
    match places_of(alloc, grammar, &line.symbols)? {
        Some(places) => Ok(Some(Form {
            name: line.name.copy(alloc)?,
            places,
        })),
        None => Ok(None),
    }
}

/// The forms that the lines spell, with the sorts of the grammar, or None where a place is of no
/// sort of the grammar.
pub fn forms_of(
    alloc: Global,
    grammar: &Grammar,
    lines: &[FormLine],
) -> Result<Option<Vec<Form>>, NoMemory>
    ensures { IfOk result (λ o. MatchOption o (¬ (HaveSortsOf grammar.now.parts lines.now))
        (λ v. HaveSortsOf grammar.now.parts lines.now ×
        (view.forms v.items ≡ map (form_of grammar.now.parts) lines.now))) }
{
    let mut forms = Vec::with_capacity(alloc, lines.len())?;
    for i in 0..lines.len() {
        let line = &lines[i];
        match form_of(alloc, grammar, line)? {
            Some(form) => forms.push(form)?,
            None => return Ok(None),
        }
    }
    Ok(Some(forms))
}
