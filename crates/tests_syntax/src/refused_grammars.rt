//! Parts that are no grammar, each for one reason, and parts that are one.

use crate::asserts::assert_same;
use crate::symbols::{Piece, Unmade, add, add_bare_sort, are_words, nothing};
use std::alloc::Global;
use sx_grammar::{Grammar, GrammarError, GrammarParts};
use sx_term::LexKind;

/// Adds the typed sort `Exp` of variables at level 90, and the plain sort `Ty` of `Int`.
fn add_language(alloc: Global, parts: &mut GrammarParts) -> Result<(), Unmade> {
    add_bare_sort(alloc, parts, "Exp", true)?;
    add_bare_sort(alloc, parts, "Ty", false)?;
    add(alloc, parts, "var", "Exp", 90, &[Piece::Lex(LexKind::Id)])?;
    add(alloc, parts, "int", "Ty", 90, &[Piece::Lit("Int")])
}

/// Which refusal it is, and the name that it carries.
fn told(error: &GrammarError) -> (&str, &str) {
    match error {
        GrammarError::Memory => ("Memory", ""),
        GrammarError::BadLiteral(text) => ("BadLiteral", text.as_str()),
        GrammarError::SameSort(name) => ("SameSort", name.as_str()),
        GrammarError::UnknownSort(name) => ("UnknownSort", name.as_str()),
        GrammarError::SameLabel(label) => ("SameLabel", label.as_str()),
        GrammarError::PlainHasTyped(label) => ("PlainHasTyped", label.as_str()),
        GrammarError::NoBrackets(sort) => ("NoBrackets", sort.as_str()),
        GrammarError::Cyclic(sort) => ("Cyclic", sort.as_str()),
    }
}

/// The refusal and its name as one text.
pub(crate) fn words(alloc: Global, error: &GrammarError) -> Result<String, Unmade> {
    let (kind, name) = told(error);
    Ok(format!(in alloc; "{kind} {name}")?)
}

/// Why the parts are no grammar, and the name that is told; or nothing where they are one.
fn refusal(alloc: Global, parts: GrammarParts) -> Result<String, Unmade> {
    match parts.is_within_limits(alloc) {
        Ok(true) => made(alloc, Grammar::make(alloc, parts)),
        Ok(false) => {
            drop(parts);
            Ok(String::from_str(alloc, "not within limits")?)
        }
        Err(error) => {
            drop(parts);
            Err(Unmade)
        }
    }
}

/// The same of what came of making one.
fn made(alloc: Global, grammar: Result<Grammar, GrammarError>) -> Result<String, Unmade> {
    let answer = match &grammar {
        Ok(_) => Ok(String::new(alloc)),
        Err(error) => words(alloc, error),
    };
    drop(grammar);
    answer
}

/// The refusal of the parts, if they could be filled.
fn added(alloc: Global, parts: GrammarParts, filled: Result<(), Unmade>) -> Result<String, Unmade> {
    match filled {
        Ok(()) => refusal(alloc, parts),
        Err(unmade) => {
            drop(parts);
            Err(unmade)
        }
    }
}

/// Adds the language and one more production, of one symbol.
fn add_with(
    alloc: Global,
    parts: &mut GrammarParts,
    label: &str,
    of: &str,
    level: u8,
    piece: Piece,
) -> Result<(), Unmade> {
    add_language(alloc, parts)?;
    add(alloc, parts, label, of, level, &[piece])
}

/// The refusal of the language with one more production, of one symbol.
fn with(alloc: Global, label: &str, of: &str, level: u8, piece: Piece) -> Result<String, Unmade> {
    let mut parts = nothing(alloc);
    let filled = add_with(alloc, &mut parts, label, of, level, piece);
    added(alloc, parts, filled)
}

/// Whether the language with one more production, of one symbol, is refused by these words, or is
/// one where there are none.
fn is_told(alloc: Global, label: &str, of: &str, level: u8, piece: Piece, wanted: &str) -> bool {
    are_words(with(alloc, label, of, level, piece), wanted)
}

#[test]
fn one_more_production(rt: HostRuntime) {
    let alloc = rt.alloc();
    let bad = Piece::Lit("//");
    let hold = [
        is_told(alloc, "typed", "Exp", 50, Piece::Part("Ty", 90), ""),
        is_told(alloc, "note", "Ty", 0, bad, "BadLiteral //"),
        is_told(
            alloc,
            "app",
            "Exp",
            50,
            Piece::Part("Env", 0),
            "UnknownSort Env",
        ),
        is_told(alloc, "int", "Ty", 90, Piece::Lit("Str"), "SameLabel int"),
        is_told(
            alloc,
            "size",
            "Ty",
            90,
            Piece::Part("Exp", 0),
            "PlainHasTyped size",
        ),
        is_told(
            alloc,
            "up",
            "Exp",
            95,
            Piece::Part("Ty", 91),
            "NoBrackets Ty",
        ),
        is_told(alloc, "loop", "Exp", 0, Piece::Part("Exp", 0), "Cyclic Exp"),
    ];
    assert_same(&rt, &hold, &[true; 7]);
}

/// Adds the language and a second sort `Ty`.
fn add_twice(alloc: Global, parts: &mut GrammarParts) -> Result<(), Unmade> {
    add_language(alloc, parts)?;
    add_bare_sort(alloc, parts, "Ty", true)
}

#[test]
fn same_sort(rt: HostRuntime) {
    let mut parts = nothing(rt.alloc());
    let filled = add_twice(rt.alloc(), &mut parts);
    let words = added(rt.alloc(), parts, filled);
    assert_same(&rt, &are_words(words, "SameSort Ty"), &true);
}

/// Adds the sort with this number, and the step with this number from it to the sort with the other
/// number.
fn add_step(
    alloc: Global,
    parts: &mut GrammarParts,
    number: usize,
    to: usize,
) -> Result<(), Unmade> {
    let sort = format!(in alloc; "s{number}")?;
    let label = format!(in alloc; "p{number}")?;
    let next = format!(in alloc; "s{to}")?;
    add_bare_sort(alloc, parts, sort.as_str(), false)?;
    add(
        alloc,
        parts,
        label.as_str(),
        sort.as_str(),
        0,
        &[Piece::Part(next.as_str(), 0)],
    )
}

/// Adds sorts in a row, each with a step to the next; the last leads back to the sort with this
/// number.
fn add_row(
    alloc: Global,
    parts: &mut GrammarParts,
    count: usize,
    back: usize,
) -> Result<(), Unmade> {
    for number in 0..count {
        let to = if number + 1 < count { number + 1 } else { back };
        add_step(alloc, parts, number, to)?;
    }
    Ok(())
}

#[test]
fn first_of_the_sorts_that_derive_themselves(rt: HostRuntime) {
    let mut parts = nothing(rt.alloc());
    let filled = add_row(rt.alloc(), &mut parts, 30000, 29998);
    let words = added(rt.alloc(), parts, filled);
    assert_same(&rt, &are_words(words, "Cyclic s29998"), &true);
}
