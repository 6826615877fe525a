//! Whether the literals and names of more productions are good behind those of a grammar.

ghost use Rattle.std.specs.Prelude.{◌≡◌, ◌++◌, map, Contains, IsTrue, IfOk};
ghost use Rattle.sx_term.specs.Cutting.{AreDistinct};
ghost use Rattle.sx_grammar.specs.Parts.{Parts, line, names};
ghost use Rattle.sx_grammar.specs.Standing.{labels_in, literals_in, sorts_in};
ghost use Rattle.sx_grammar.specs.Extended.{GrammarGrows};
ghost use Rattle.sx_grammar.specs.Made.{HasNone, HasLabels, IsBadLiteral, IsUnknownSort};

use crate::firsts::{Numbering, first_bad, first_unknown, number};
use crate::grammar::Grammar;
use crate::production::Production;
use crate::standing::{labels, literals_in, sorts_named};
use std::alloc::{AllocError, Global};
use sx_term::{Names, NoMemory};

/// Whether the literals of the productions are words or symbol characters.
fn have_good_literals(alloc: Global, more: &[Production]) -> Result<bool, AllocError>
    ensures { IfOk result (λ r. IsTrue r →
        HasNone IsBadLiteral (literals_in (map line more.now))) }
{
    let texts = literals_in(alloc, more)?;
    match first_bad(&texts) {
        None => Ok(true),
        Some(_) => Ok(false),
    }
}

/// Whether the sorts that the productions name are among those known.
fn have_known_sorts(alloc: Global, known: &Names, more: &[Production]) -> Result<bool, AllocError>
    ensures { IfOk result (λ r. IsTrue r →
        HasNone (IsUnknownSort known.now) (sorts_in (map line more.now))) }
{
    let named = sorts_named(alloc, more)?;
    match first_unknown(known, &named) {
        None => Ok(true),
        Some(_) => Ok(false),
    }
}

/// Whether none of the productions has one of the labels.
fn lack_labels(known: &Names, productions: &[Production]) -> bool
    ensures { IsTrue result →
        HasNone (Contains known.now) (labels_in (map line productions.now)) }
{
    for production in productions {
        if known.number(production.label.bytes()).is_some() {
            return false;
        }
    }
    true
}

/// Whether the labels of more productions are distinct, and none of them is one of those before.
fn have_new_labels(
    alloc: Global,
    before: &[Production],
    more: &[Production],
) -> Result<bool, NoMemory>
    ensures { IfOk result (λ r. IsTrue r → AreDistinct (labels_in (map line before.now)) →
        AreDistinct (labels_in (map line before.now) ++ labels_in (map line more.now))) }
{
    let list = labels(alloc, more)?;
    let numbering = number(alloc, &list);
    drop(list);
    match numbering? {
        Numbering::Distinct(known) => {
            let new = lack_labels(&known, before);
            drop(known);
            Ok(new)
        }
        Numbering::Again(_) => Ok(false),
    }
}

/// Whether the literals and names of more productions are good behind those of the grammar, where
/// these are the names of its sorts, and of one more sort or none.
pub(crate) fn are_well_named(
    alloc: Global,
    base: &Grammar,
    sorts: &Names,
    more: &[Production],
) -> Result<bool, NoMemory>
    ensures { IfOk result (λ r. IsTrue r → (whole : Parts) →
        GrammarGrows base.now.parts (map line more.now) whole → sorts.now ≡ names whole →
        AreDistinct sorts.now → HasLabels whole) }
{
    if !have_good_literals(alloc, more)? || !have_known_sorts(alloc, sorts, more)? {
        return Ok(false);
    }
    have_new_labels(alloc, &base.parts.productions, more)
}
