//! A grammar with one more sort than another one.

ghost use Rattle.std.specs.Prelude.{◌≡◌, OnOk, IfOk, IsTrue, map};
ghost use Rattle.sx_grammar.specs.Parts.{line, parts as parts_of};
ghost use Rattle.sx_grammar.specs.Extended.{widened};
ghost use Rattle.sx_grammar.specs.Tables.{IsWithinLimits};

use crate::asserts::assert_same;
use crate::extended_grammars::{add_copies, one, told};
use crate::samples::{Sample, grammar_of};
use crate::symbols::{Piece, Unmade, are_words, text};
use std::alloc::Global;
use sx_grammar::{Grammar, GrammarParts, Production, SortLine};
use sx_term::NoMemory;

/// Adds copies of the sort and of the productions.
fn add_all(
    alloc: Global,
    parts: &mut GrammarParts,
    sort: &SortLine,
    more: &[Production],
) -> Result<(), NoMemory>
    ensures { OnOk result (parts_of parts.new
        ≡ widened (parts_of parts.old) sort.now (map line more.now)) }
{
    parts.sorts.push(sort.copy(alloc)?)?;
    add_copies(alloc, parts, more)
}

/// Whether the grammar can be made of these and the grammar, or why not can be told.
fn is_widenable(
    alloc: Global,
    base: &Grammar,
    sort: &SortLine,
    more: &[Production],
) -> Result<bool, Unmade>
    ensures { IfOk result (λ r. IsTrue r → IsWithinLimits
        (widened base.now.parts sort.now (map line more.now))) }
{
    let mut all = base.parts().copy(alloc)?;
    let added = add_all(alloc, &mut all, sort, more);
    let answer = all.is_within_limits(alloc);
    drop(all);
    added?;
    Ok(answer?)
}

/// What comes of the grammar with the sort and the productions behind its own.
fn tried(
    alloc: Global,
    base: &Grammar,
    sort: SortLine,
    more: Vec<Production>,
) -> Result<String, Unmade> {
    match is_widenable(alloc, base, &sort, &more) {
        Ok(true) => told(alloc, Grammar::with_sort(alloc, base, sort, more)),
        Ok(false) => {
            drop(more);
            drop(sort);
            Err(Unmade)
        }
        Err(unmade) => {
            drop(more);
            drop(sort);
            Err(unmade)
        }
    }
}

/// What comes of the grammar with the plain sort `Top` and the productions behind its own.
fn with_top(alloc: Global, base: &Grammar, more: Vec<Production>) -> Result<String, Unmade> {
    match text(alloc, "Top") {
        Ok(name) => {
            let sort = SortLine {
                name,
                typed: false,
                brackets: None,
            };
            tried(alloc, base, sort, more)
        }
        Err(unmade) => {
            drop(more);
            Err(unmade)
        }
    }
}

/// What comes of the rows with the sort `Top` and one production of it.
fn rows_with_top(alloc: Global) -> Result<String, Unmade> {
    let more = one(alloc, "top", "Top", Piece::Lit("top"))?;
    match grammar_of(alloc, Sample::Rows) {
        Ok(base) => {
            let answer = with_top(alloc, &base, more);
            drop(base);
            answer
        }
        Err(unmade) => {
            drop(more);
            Err(unmade)
        }
    }
}

/// All productions are base, those of the new sort too.
#[test]
fn rows_with_one_more_sort(rt: HostRuntime) {
    let is = are_words(rows_with_top(rt.alloc()), "3 true true true");
    assert_same(&rt, &is, &true);
}
