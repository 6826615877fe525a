//! The openings of a grammar.

ghost use Rattle.std.specs.Prelude.{◌≡◌, ℕ, [], OnOk, IfOk, length};
ghost use Rattle.sx_earley.specs.Shown.{plain};
ghost use Rattle.sx_earley.specs.Openings.{HasAllOpenings, MayAddOpening, AreFiled, IsBelow};
ghost use Rattle.sx_earley.specs.Openings.{openings_of};

use crate::opening::Opening;
use crate::slot::Slot;
use crate::symbols::{made_by, symbol_of};
use crate::table::Table;
use std::alloc::Global;
use sx_grammar::{Grammar, Head};
use sx_term::NoMemory;

/// Files the opening of the head's production at place 0 under its sort, if the head makes one.
fn file_opening(
    alloc: Global,
    grammar: &Grammar,
    table: &mut Table<Opening>,
    head: Head,
) -> Result<(), NoMemory>
    ensures { OnOk result (MayAddOpening grammar.now head table.old table.new) }
{
    let Some((sort, level)) = made_by(grammar, head) else {
        return Ok(());
    };
    let first = symbol_of(grammar, head, 0);
    let opening = Opening { head, level, first };
    table.file(alloc, Slot { place: 0, sort }, opening)?;
    Ok(())
}

/// Files the openings of the labelled productions.
fn file_labelled(
    alloc: Global,
    grammar: &Grammar,
    table: &mut Table<Opening>,
) -> Result<(), NoMemory>
    requires { (sort : ℕ) → openings_of table.old sort ≡ [] }
    ensures { OnOk result (AreFiled grammar.now
        (IsBelow (length (plain grammar.now).productions) 0) table.new) }
{
    grammar.facts();
    let productions = grammar.productions();
    for label in 0..productions.len() {
        file_opening(alloc, grammar, table, Head::Labelled(label as u32))?;
    }
    Ok(())
}

/// Files the openings of the bracket pairs.
fn file_bracketed(
    alloc: Global,
    grammar: &Grammar,
    table: &mut Table<Opening>,
) -> Result<(), NoMemory>
    requires { AreFiled grammar.now
        (IsBelow (length (plain grammar.now).productions) 0) table.old }
    ensures { OnOk result (AreFiled grammar.now
        (IsBelow (length (plain grammar.now).productions) (length (plain grammar.now).sorts))
        table.new) }
{
    grammar.facts();
    for sort in 0..grammar.parts().sorts.len() {
        file_opening(alloc, grammar, table, Head::Bracketed(sort as u32))?;
    }
    Ok(())
}

/// What begins each production, by the sort that this makes.
pub(crate) fn openings(alloc: Global, grammar: &Grammar) -> Result<Table<Opening>, NoMemory>
    ensures { IfOk result (HasAllOpenings grammar.now) }
{
    let mut table = Table::new(alloc);
    file_labelled(alloc, grammar, &mut table)?;
    file_bracketed(alloc, grammar, &mut table)?;
    Ok(table)
}
