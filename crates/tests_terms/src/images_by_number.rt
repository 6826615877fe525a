//! Plain images by number, by values that are worked out by hand.

ghost use Rattle.std.specs.Prelude.{◌≤◌};
ghost use Rattle.sx_term.specs.Tree.{depth_of};
ghost use Rattle.sx_term.specs.Term.{tree};
ghost use Rattle.sx_plain.specs.Tables.{FitsTable};
ghost use Rattle.sx_plain.specs.Views.{table_of};
ghost use Rattle.sx_arena.specs.Arena.{IsArena};

use crate::asserts::assert_same;
use crate::conditions::fits;
use crate::plain_images::{SAME, Told, UNFIT, three_entries, unlowered};
use crate::samples::{nested, term, term_of};
use std::alloc::Global;
use sx_arena::{Arena, enter};
use sx_images::Images;
use sx_plain::PlainTable;
use sx_term::Term;

/// What lowering the term by number answers; where it has an image, whether that has the number of
/// the wanted term.
fn lower_in(
    alloc: Global,
    table: &PlainTable,
    arena: &mut Arena,
    term: &Term,
    wanted: &Term,
) -> Told
    requires arena { IsArena arena.old }
    requires shallow { depth_of (tree term.now) ≤ 1000 }
    requires fits { FitsTable (table_of table.now) (tree term.now) }
    requires wanted { depth_of (tree wanted.now) ≤ 1000 }
{
    let Ok(wanted) = enter(alloc, arena, wanted) else {
        return ("memory", 0);
    };
    let Ok(number) = enter(alloc, arena, term) else {
        return ("memory", 0);
    };
    let mut images = Images::new(alloc);
    let lowered = images.lower(alloc, table, arena, number);
    drop(images);
    match lowered {
        Ok(image) if image == wanted => SAME,
        Ok(_) => ("another", 0),
        Err(error) => unlowered(&error),
    }
}

/// The same of a term that may not fit the three entries.
fn lower_term(alloc: Global, term: &Term, wanted: &Term) -> Told
    requires shallow { depth_of (tree term.now) ≤ 1000 }
    requires wanted { depth_of (tree wanted.now) ≤ 1000 }
{
    let table = three_entries(alloc);
    if !fits(&table, term) {
        drop(table);
        return UNFIT;
    }
    let mut arena = Arena::new(alloc);
    let told = lower_in(alloc, &table, &mut arena, term, wanted);
    drop(arena);
    drop(table);
    told
}

/// What lowering the term that this core text spells answers, by the three entries.
fn lowered(alloc: Global, core: &[u8], wanted: &str) -> Told {
    match (term_of(alloc, core), term(alloc, wanted)) {
        (Some(term), Some(wanted)) => {
            let told = lower_term(alloc, &term, &wanted);
            drop(wanted);
            drop(term);
            told
        }
        (term, wanted) => {
            drop(wanted);
            drop(term);
            UNFIT
        }
    }
}

#[test]
fn terms_are_lowered_by_number(rt: HostRuntime) {
    let alloc = rt.alloc();
    let both = lowered(
        alloc,
        b"(3 i1:x (2 n1:7))",
        "(1 (0 n1:7 n1:7) (0 i1:x i1:x))",
    );
    let shared = lowered(
        alloc,
        b"(0 (2 (4 ?5)) (1 (2 (4 ?5))))",
        "(0 (0 (1 (1 ?5)) (1 (1 ?5))) (1 (0 (1 (1 ?5)) (1 (1 ?5)))))",
    );
    let other = lowered(alloc, b"(2 i1:x)", "(0 i1:x i1:y)");
    assert_same(&rt, &[both, shared, other], &[SAME, SAME, ("another", 0)]);
}

/// What lowering so many fronts of nodes round this core text answers.
fn lower_nested(alloc: Global, front: &[u8], count: u32, middle: &[u8]) -> Told {
    let core = nested(alloc, front, count, middle, b")");
    let told = lowered(alloc, &core, "?7");
    drop(core);
    told
}

#[test]
fn images_by_number_have_limits(rt: HostRuntime) {
    let alloc = rt.alloc();
    let found = [
        lower_nested(alloc, b"(4 ", 500, b"?7"),
        lower_nested(alloc, b"(2 ", 40, b"i1:x"),
        lowered(alloc, b"(3 ?0)", "?7"),
    ];
    let wanted = &[("too deep", 1001), ("too big", 2_199_023_255_551), UNFIT];
    assert_same(&rt, &found, wanted);
}
