//! A grammar with more productions than another one.

ghost use Rattle.std.specs.Prelude.{◌≡◌, OnOk, IfOk, IsTrue, map};
ghost use Rattle.sx_grammar.specs.Parts.{line, parts as parts_of};
ghost use Rattle.sx_grammar.specs.Extended.{extended};
ghost use Rattle.sx_grammar.specs.Tables.{IsWithinLimits};

use crate::asserts::assert_same;
use crate::refused_grammars::words;
use crate::samples::{Sample, grammar_of};
use crate::symbols::{Piece, Unmade, add, are_words, nothing, term};
use std::alloc::Global;
use sx_grammar::{Grammar, GrammarError, GrammarParts, Production};
use sx_term::NoMemory;

/// Adds copies of the productions.
pub(crate) fn add_copies(
    alloc: Global,
    parts: &mut GrammarParts,
    more: &[Production],
) -> Result<(), NoMemory>
    ensures { OnOk result (parts_of parts.new ≡ extended (parts_of parts.old) (map line more.now)) }
{
    for i in 0..more.len() {
        parts.productions.push(more[i].copy(alloc)?)?;
    }
    Ok(())
}

/// Whether the grammar can be extended by the productions, or why not can be told.
fn is_extensible(alloc: Global, base: &Grammar, more: &[Production]) -> Result<bool, Unmade>
    ensures { IfOk result (λ r. IsTrue r → IsWithinLimits
        (extended base.now.parts (map line more.now))) }
{
    let mut all = base.parts().copy(alloc)?;
    let added = add_copies(alloc, &mut all, more);
    let answer = all.is_within_limits(alloc);
    drop(all);
    added?;
    Ok(answer?)
}

/// One production of the sort, of one symbol.
pub(crate) fn one(
    alloc: Global,
    label: &str,
    sort: &str,
    piece: Piece,
) -> Result<Vec<Production>, Unmade> {
    let mut parts = nothing(alloc);
    match add(alloc, &mut parts, label, sort, 90, &[piece]) {
        Ok(()) => {
            let GrammarParts { sorts, productions } = parts;
            drop(sorts);
            Ok(productions)
        }
        Err(unmade) => {
            drop(parts);
            Err(unmade)
        }
    }
}

/// Whether all labels of the term with this core text are of base productions.
fn is_base(alloc: Global, grammar: &Grammar, core: &str) -> Result<bool, Unmade> {
    let term = term(alloc, core)?;
    let answer = grammar.is_base(&term);
    drop(term);
    Ok(answer)
}

/// The number of productions, and which of the first three are base.
fn shape(alloc: Global, grammar: &Grammar) -> Result<String, Unmade> {
    let count = grammar.parts().productions.len();
    let first = is_base(alloc, grammar, "(0)")?;
    let second = is_base(alloc, grammar, "(1)")?;
    let third = is_base(alloc, grammar, "(2)")?;
    Ok(format!(in alloc; "{count} {first} {second} {third}")?)
}

/// What was made, in words.
pub(crate) fn told(alloc: Global, made: Result<Grammar, GrammarError>) -> Result<String, Unmade> {
    let answer = match &made {
        Ok(grammar) => shape(alloc, grammar),
        Err(error) => words(alloc, error),
    };
    drop(made);
    answer
}

/// What comes of extending the grammar by the productions.
fn tried(alloc: Global, base: &Grammar, more: Vec<Production>) -> Result<String, Unmade> {
    match is_extensible(alloc, base, &more) {
        Ok(true) => told(alloc, Grammar::extend(alloc, base, more)),
        Ok(false) => {
            drop(more);
            Err(Unmade)
        }
        Err(unmade) => {
            drop(more);
            Err(unmade)
        }
    }
}

/// What comes of extending the rows by one production.
fn rows_with(alloc: Global, label: &str, piece: Piece) -> Result<String, Unmade> {
    let more = one(alloc, label, "Exp", piece)?;
    match grammar_of(alloc, Sample::Rows) {
        Ok(base) => {
            let answer = tried(alloc, &base, more);
            drop(base);
            answer
        }
        Err(unmade) => {
            drop(more);
            Err(unmade)
        }
    }
}

/// Whether these words tell what comes of extending the rows by one production.
fn is_told(alloc: Global, label: &str, piece: Piece, wanted: &str) -> bool {
    are_words(rows_with(alloc, label, piece), wanted)
}

/// A new production is not base, a label of the base stays the base's, and a new production may
/// close a cycle.
#[test]
fn rows_with_one_more_production(rt: HostRuntime) {
    let alloc = rt.alloc();
    let hold = [
        is_told(alloc, "zero", Piece::Lit("zero"), "3 true true false"),
        is_told(alloc, "seq", Piece::Lit("zero"), "SameLabel seq"),
        is_told(alloc, "same", Piece::Part("Exp", 0), "Cyclic Exp"),
    ];
    assert_same(&rt, &hold, &[true; 3]);
}
