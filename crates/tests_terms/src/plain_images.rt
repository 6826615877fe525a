//! Plain tables and plain images, by values that are worked out by hand.

ghost use Rattle.std.specs.Prelude.{◌≡◌, ◌≤◌};
ghost use Rattle.sx_term.specs.Tree.{depth_of};
ghost use Rattle.sx_term.specs.Term.{tree};

use crate::asserts::assert_same;
use crate::conditions::{are_below, fits};
use crate::samples::{nested, term, term_of};
use std::alloc::Global;
use sx_plain::{PlainError, PlainTable, lower};
use sx_term::{Term, TermError};

/// What a call answers, in a word, and the number that goes with it.
pub(crate) type Told = (&'static str, u64);

/// The conditions of the call are not met.
pub(crate) const UNFIT: Told = ("unfit", 0);

/// What adding an entry answers.
fn added(answer: Result<(), PlainError>) -> Told {
    match answer {
        Ok(()) => ("added", 0),
        Err(PlainError::Memory) => ("memory", 0),
        Err(PlainError::Twice(label)) => ("twice", u64::from(label)),
        Err(PlainError::UsesLater(label)) => ("uses later", u64::from(label)),
        Err(PlainError::Drops(part)) => ("drops", u64::from(part)),
        Err(PlainError::TooDeep(depth)) => ("too deep", u64::from(depth)),
        Err(PlainError::TooBig(nodes)) => ("too big", nodes),
    }
}

/// Adds the body that this core text spells.
pub(crate) fn add(
    alloc: Global,
    table: &mut PlainTable,
    label: u32,
    arity: u32,
    core: &[u8],
) -> Told
    requires { table.old.base ≤ label }
    ensures { table.new.base ≡ table.old.base }
{
    let Some(body) = term_of(alloc, core) else {
        return UNFIT;
    };
    if !are_below(&body, arity) || !fits(table, &body) {
        drop(body);
        return UNFIT;
    }
    added(table.add(label, arity, body))
}

/// The table with `2` as `(0 ?0 ?0)`, `3` as `(1 ?1 (2 ?0))` and `4` as `(1 (1 ?0))`, over the base
/// labels 0 and 1.
pub(crate) fn three_entries(alloc: Global) -> PlainTable
    ensures { result.base ≡ 2 }
{
    let mut table = PlainTable::new(alloc, 2);
    add(alloc, &mut table, 2, 1, b"(0 ?0 ?0)");
    add(alloc, &mut table, 3, 2, b"(1 ?1 (2 ?0))");
    add(alloc, &mut table, 4, 1, b"(1 (1 ?0))");
    table
}

/// What adding one more entry answers, and whether the label has one then.
fn tried(alloc: Global, label: u32, arity: u32, core: &[u8]) -> (Told, bool)
    requires { 2 ≤ label }
{
    let mut table = three_entries(alloc);
    let added = add(alloc, &mut table, label, arity, core);
    let is_there = table.flat(label).is_some();
    drop(table);
    (added, is_there)
}

/// The same for `5` with one part, whose body is so many fronts of nodes round this core text.
fn tried_nested(alloc: Global, front: &[u8], count: u32, middle: &[u8]) -> (Told, bool) {
    let core = nested(alloc, front, count, middle, b")");
    let told = tried(alloc, 5, 1, &core);
    drop(core);
    told
}

/// Whether the flat body of the label is this term.
fn is_flat(alloc: Global, table: &PlainTable, label: u32, core: &str) -> bool {
    match term(alloc, core) {
        Some(wanted) => {
            let is = match table.flat(label) {
                Some(flat) => flat.same(&wanted),
                None => false,
            };
            drop(wanted);
            is
        }
        None => false,
    }
}

#[test]
fn entries_are_flat(rt: HostRuntime) {
    let alloc = rt.alloc();
    let table = three_entries(alloc);
    let found = [
        is_flat(alloc, &table, 2, "(0 ?0 ?0)"),
        is_flat(alloc, &table, 3, "(1 ?1 (0 ?0 ?0))"),
        table.flat(1).is_some(),
        table.flat(5).is_some(),
    ];
    drop(table);
    assert_same(&rt, &found, &[true, true, false, false]);
}

#[test]
fn entries_are_refused(rt: HostRuntime) {
    let alloc = rt.alloc();
    let found = [
        tried(alloc, 5, 1, b"(3 ?0 ?0)"),
        tried(alloc, 2, 2, b"(7 ?0)"),
        tried(alloc, 5, 1, b"(0 (1 ?0) (1 (8 (7))))"),
        tried(alloc, 5, 2, b"(5 ?0)"),
        tried(alloc, 5, 3, b"(0 ?0 ?2)"),
        tried(alloc, 5, 1, b"(0 ?0 ?1)"),
        tried(alloc, 5, 1, b"(3 ?0)"),
    ];
    let wanted = &[
        (("added", 0), true),
        (("twice", 2), true),
        (("uses later", 8), false),
        (("uses later", 5), false),
        (("drops", 1), false),
        (UNFIT, false),
        (UNFIT, false),
    ];
    assert_same(&rt, &found, wanted);
}

#[test]
fn flat_bodies_have_limits(rt: HostRuntime) {
    let alloc = rt.alloc();
    let found = [
        tried_nested(alloc, b"(4 ", 500, b"?0"),
        tried_nested(alloc, b"(4 ", 499, b"(1 ?0)"),
        tried_nested(alloc, b"(2 ", 40, b"?0"),
        tried_nested(alloc, b"(2 ", 18, b"?0"),
    ];
    let wanted = &[
        (("too deep", 1001), false),
        (("added", 0), true),
        (("too big", 2_199_023_255_551), false),
        (("added", 0), true),
    ];
    assert_same(&rt, &found, wanted);
}

/// The image is the wanted term.
pub(crate) const SAME: Told = ("same", 0);

/// What a refusal to lower answers.
pub(crate) fn unlowered(error: &TermError) -> Told {
    match error {
        TermError::Memory => ("memory", 0),
        TermError::TooDeep(depth) => ("too deep", u64::from(*depth)),
        TermError::TooBig(nodes) => ("too big", *nodes),
    }
}

/// The plain image of the term, compared with the wanted one.
fn lower_term(alloc: Global, table: &PlainTable, term: &Term, wanted: &Term) -> Told
    requires depth { depth_of (tree term.now) ≤ 1000 }
    requires wanted_depth { depth_of (tree wanted.now) ≤ 1000 }
{
    if !fits(table, term) {
        return UNFIT;
    }
    let lowered = lower(alloc, table, term);
    let told = match &lowered {
        Ok(image) => {
            if image.same(wanted) {
                SAME
            } else {
                ("another", 0)
            }
        }
        Err(error) => unlowered(error),
    };
    drop(lowered);
    told
}

/// The plain image of the term that this core text spells, compared with the wanted one.
pub(crate) fn lower_as(alloc: Global, table: &PlainTable, core: &[u8], wanted: &str) -> Told {
    match (term_of(alloc, core), term(alloc, wanted)) {
        (Some(term), Some(wanted)) => {
            let told = lower_term(alloc, table, &term, &wanted);
            drop(wanted);
            drop(term);
            told
        }
        (term, wanted) => {
            drop(wanted);
            drop(term);
            UNFIT
        }
    }
}

#[test]
fn terms_are_lowered(rt: HostRuntime) {
    let alloc = rt.alloc();
    let made = three_entries(alloc);
    let both = lower_as(
        alloc,
        &made,
        b"(3 i1:x (2 n1:7))",
        "(1 (0 n1:7 n1:7) (0 i1:x i1:x))",
    );
    let copied = made.copy(alloc);
    drop(made);
    let inner = match &copied {
        Ok(table) => lower_as(
            alloc,
            table,
            b"(0 ?5 (1 (3 ?6 i1:y)))",
            "(0 ?5 (1 (1 i1:y (0 ?6 ?6))))",
        ),
        Err(_) => UNFIT,
    };
    drop(copied);
    assert_same(&rt, &[both, inner], &[SAME; 2]);
}

/// What lowering so many fronts of nodes round this core text answers, by the three entries.
fn lower_nested(alloc: Global, front: &[u8], count: u32, middle: &[u8]) -> Told {
    let core = nested(alloc, front, count, middle, b")");
    let table = three_entries(alloc);
    let told = lower_as(alloc, &table, &core, "?7");
    drop(table);
    drop(core);
    told
}

#[test]
fn images_have_limits(rt: HostRuntime) {
    let alloc = rt.alloc();
    let found = [
        lower_nested(alloc, b"(4 ", 500, b"?7"),
        lower_nested(alloc, b"(2 ", 40, b"i1:x"),
    ];
    assert_same(
        &rt,
        &found,
        &[("too deep", 1001), ("too big", 2_199_023_255_551)],
    );
}

/// What lowering the term answers, by the three entries and by `5`, which is its part as it is.
fn lower_bare(alloc: Global, core: &[u8], wanted: &str) -> Told {
    let mut table = three_entries(alloc);
    add(alloc, &mut table, 5, 1, b"?0");
    let answer = lower_as(alloc, &table, core, wanted);
    drop(table);
    answer
}

#[test]
fn bare_nodes_give_way(rt: HostRuntime) {
    let alloc = rt.alloc();
    let found = [
        lower_bare(alloc, b"(5 (5 (2 (5 (5 i1:x)))))", "(0 i1:x i1:x)"),
        lower_bare(alloc, b"(5 (5 ?3))", "?3"),
    ];
    assert_same(&rt, &found, &[SAME; 2]);
}
