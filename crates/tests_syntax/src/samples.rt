//! Small grammars.

use crate::symbols::{Piece, Unmade, add, add_sort, nothing};
use std::alloc::Global;
use sx_grammar::{Grammar, GrammarParts};
use sx_term::LexKind;

const NUM: Piece<'static> = Piece::Lex(LexKind::Num);

const ID: Piece<'static> = Piece::Lex(LexKind::Id);

/// A small grammar.
#[derive(Clone, Copy)]
pub(crate) enum Sample {
    /// `last` is a number, and `seq` a number and what comes after it.
    Rows,
    /// `none` is nothing, and `seq` a number and what comes after it.
    OpenRows,
    /// Numbers, and sums whose right side has at least this level.
    Sums(u8),
    /// Two sorts with the same brackets: each `Down` is an `Up`, and a number or nothing is a
    /// `Down`.
    Chain,
    /// Variables, functions, applications to the left, numbers, the type `Int`, and arrows to the
    /// right.
    Functions,
}

fn add_number(alloc: Global, parts: &mut GrammarParts) -> Result<(), Unmade> {
    add(alloc, parts, "last", "Exp", 90, &[NUM])
}

fn add_row(alloc: Global, parts: &mut GrammarParts) -> Result<(), Unmade> {
    add(
        alloc,
        parts,
        "seq",
        "Exp",
        90,
        &[NUM, Piece::Part("Exp", 90)],
    )
}

fn add_sum(alloc: Global, parts: &mut GrammarParts, least: u8) -> Result<(), Unmade> {
    let symbols = [
        Piece::Part("Exp", 50),
        Piece::Lit("+"),
        Piece::Part("Exp", least),
    ];
    add(alloc, parts, "plus", "Exp", 50, &symbols)
}

fn add_chain(alloc: Global, parts: &mut GrammarParts) -> Result<(), Unmade> {
    add_sort(alloc, parts, "Up", false)?;
    add_sort(alloc, parts, "Down", false)?;
    add(alloc, parts, "up", "Up", 0, &[Piece::Part("Down", 0)])?;
    add(alloc, parts, "last", "Down", 0, &[NUM])?;
    add(alloc, parts, "none", "Down", 0, &[])
}

fn add_function(alloc: Global, parts: &mut GrammarParts) -> Result<(), Unmade> {
    let symbols = [
        Piece::Lit("\\"),
        ID,
        Piece::Lit(":"),
        Piece::Part("Ty", 0),
        Piece::Lit("."),
        Piece::Part("Exp", 10),
    ];
    add(alloc, parts, "lam", "Exp", 10, &symbols)
}

fn add_application(alloc: Global, parts: &mut GrammarParts) -> Result<(), Unmade> {
    add(
        alloc,
        parts,
        "app",
        "Exp",
        50,
        &[Piece::Part("Exp", 50), Piece::Part("Exp", 51)],
    )
}

fn add_arrow(alloc: Global, parts: &mut GrammarParts) -> Result<(), Unmade> {
    let symbols = [
        Piece::Part("Ty", 11),
        Piece::Lit("->"),
        Piece::Part("Ty", 10),
    ];
    add(alloc, parts, "arrow", "Ty", 10, &symbols)
}

fn add_functions(alloc: Global, parts: &mut GrammarParts) -> Result<(), Unmade> {
    add_sort(alloc, parts, "Exp", true)?;
    add_sort(alloc, parts, "Ty", false)?;
    add(alloc, parts, "var", "Exp", 90, &[ID])?;
    add_function(alloc, parts)?;
    add_application(alloc, parts)?;
    add(alloc, parts, "num", "Exp", 90, &[NUM])?;
    add(alloc, parts, "int", "Ty", 90, &[Piece::Lit("Int")])?;
    add_arrow(alloc, parts)
}

/// Adds the sorts and productions of the sample.
fn add_all(alloc: Global, parts: &mut GrammarParts, sample: Sample) -> Result<(), Unmade> {
    match sample {
        Sample::Rows => {
            add_sort(alloc, parts, "Exp", false)?;
            add_number(alloc, parts)?;
            add_row(alloc, parts)
        }
        Sample::OpenRows => {
            add_sort(alloc, parts, "Exp", false)?;
            add(alloc, parts, "none", "Exp", 90, &[])?;
            add_row(alloc, parts)
        }
        Sample::Sums(least) => {
            add_sort(alloc, parts, "Exp", false)?;
            add_number(alloc, parts)?;
            add_sum(alloc, parts, least)
        }
        Sample::Chain => add_chain(alloc, parts),
        Sample::Functions => add_functions(alloc, parts),
    }
}

fn parts_of(alloc: Global, sample: Sample) -> Result<GrammarParts, Unmade> {
    let mut parts = nothing(alloc);
    match add_all(alloc, &mut parts, sample) {
        Ok(()) => Ok(parts),
        Err(unmade) => {
            drop(parts);
            Err(unmade)
        }
    }
}

/// The sample as a grammar.
pub(crate) fn grammar_of(alloc: Global, sample: Sample) -> Result<Grammar, Unmade> {
    let parts = parts_of(alloc, sample)?;
    match parts.is_within_limits(alloc) {
        Ok(true) => match Grammar::make(alloc, parts) {
            Ok(grammar) => Ok(grammar),
            Err(_) => Err(Unmade),
        },
        _ => {
            drop(parts);
            Err(Unmade)
        }
    }
}
