//! Reading symbols of productions and forms.

ghost use Rattle.std.specs.Prelude.{◌≡◌, List, ℕ, ◌++◌, MatchOption, MatchResult};
ghost use Rattle.sx_term.specs.declared.role.Role.{Role as RoleOf};
ghost use Rattle.sx_grammar.specs.Parts.{texts};
ghost use Rattle.sx_directives.specs.Spelling.{role_text, SpellsSymbol, SpellsForm, EachSpelled};
ghost use Rattle.sx_directives.specs.Spelling.{NoneIs};

use crate::part_texts::literal_of;
use crate::row_error::RowError;
use crate::sorts::sort_of;
use crate::spelled::{FormSymbol, SpelledSort};
use std::alloc::Global;
use sx_grammar::Symbol;
use sx_lines::after;
use sx_term::Role;

/// The symbol of a production that a part spells.
fn symbol_of(alloc: Global, part: &[u8]) -> Result<Symbol, RowError>
    ensures { MatchResult result (SpellsSymbol part.now) (NoneIs (SpellsSymbol part.now)) }
{
    match literal_of(alloc, part) {
        Ok(text) => Ok(Symbol::Lit(text)),
        Err(RowError::Memory) => Err(RowError::Memory),
        Err(RowError::Shape) => match sort_of(alloc, part) {
            Ok(SpelledSort::Lex(kind)) => Ok(Symbol::Lex(kind)),
            Ok(SpelledSort::Named { sort, least }) => Ok(Symbol::Part { sort, least }),
            Err(e) => Err(e),
        },
    }
}

/// The symbols of a production that the parts spell.
pub(crate) fn symbols_of(alloc: Global, parts: &[&[u8]]) -> Result<Vec<Symbol>, RowError>
    ensures { MatchResult result (λ symbols. EachSpelled SpellsSymbol
        (texts parts.now) symbols.items)
        (NoneIs (EachSpelled SpellsSymbol (texts parts.now))) }
{
    let mut symbols = Vec::new(alloc);
    for part in parts {
        match symbol_of(alloc, *part) {
            Ok(symbol) => symbols.push(symbol)?,
            Err(e) => return Err(e),
        }
    }
    Ok(symbols)
}

/// What follows the front in a part that begins with it.
pub(crate) fn after_front<'a>(part: &'a [u8], front: &[u8]) -> Option<&'a [u8]>
    ensures { MatchOption result ((rest : List ℕ) → part.entry.now ≡ front.now ++ rest → ⊥)
        (λ rest. part.entry.now ≡ front.now ++ rest.now) }
{
    after(part, front)
}

/// What a place is for, and what follows that in its text.
fn split_role<'a>(part: &'a [u8]) -> Option<(Role, &'a [u8])>
    ensures { MatchOption result ((role : RoleOf) (rest : List ℕ) →
        part.entry.now ≡ role_text role ++ rest → ⊥)
        (λ x. part.entry.now ≡ role_text x.0 ++ x.1.now) }
{
    if let Some(sort) = after_front(part, b"in:") {
        return Some((Role::In, sort));
    }
    if let Some(sort) = after_front(part, b"sub:") {
        return Some((Role::Sub, sort));
    }
    if let Some(sort) = after_front(part, b"out:") {
        return Some((Role::Out, sort));
    }
    None
}

/// The symbol of a form that a part spells.
fn form_symbol_of(alloc: Global, part: &[u8]) -> Result<FormSymbol, RowError>
    ensures { MatchResult result (SpellsForm part.now) (NoneIs (SpellsForm part.now)) }
{
    match split_role(part) {
        Some((role, rest)) => match sort_of(alloc, rest) {
            Ok(sort) => Ok(FormSymbol::Place { role, sort }),
            Err(e) => Err(e),
        },
        None => match literal_of(alloc, part) {
            Ok(text) => Ok(FormSymbol::Lit(text)),
            Err(e) => Err(e),
        },
    }
}

/// The symbols of a form that the parts spell.
pub(crate) fn form_symbols_of(alloc: Global, parts: &[&[u8]]) -> Result<Vec<FormSymbol>, RowError>
    ensures { MatchResult result (λ symbols. EachSpelled SpellsForm (texts parts.now) symbols.items)
        (NoneIs (EachSpelled SpellsForm (texts parts.now))) }
{
    let mut symbols = Vec::new(alloc);
    for part in parts {
        match form_symbol_of(alloc, *part) {
            Ok(symbol) => symbols.push(symbol)?,
            Err(e) => return Err(e),
        }
    }
    Ok(symbols)
}
