//! Pairs of types as functions: over sixteen base labels, of which 2 is the type of numbers, 3 that
//! of texts, 5 the type of functions, 6 a variable and 15 a function, `16` is the type of pairs.

use crate::asserts::assert_same;
use crate::plain_images::{SAME, Told, add, lower_as};
use std::alloc::Global;
use sx_plain::PlainTable;

/// What adding this body of the type of pairs answers.
fn added(alloc: Global, core: &[u8]) -> Told {
    let mut table = PlainTable::new(alloc, 16);
    let answer = add(alloc, &mut table, 16, 2, core);
    drop(table);
    answer
}

/// What lowering the term answers, where pairs are functions from what takes both to a text.
fn lowered(alloc: Global, core: &[u8], wanted: &str) -> Told {
    let mut table = PlainTable::new(alloc, 16);
    add(alloc, &mut table, 16, 2, b"(5 (5 ?0 (5 ?1 (3))) (3))");
    let answer = lower_as(alloc, &table, core, wanted);
    drop(table);
    answer
}

#[test]
fn pairs_use_both_parts(rt: HostRuntime) {
    let alloc = rt.alloc();
    let found = [
        added(alloc, b"(5 (5 ?0 (5 ?1 (3))) (3))"),
        added(alloc, b"(5 ?0 (3))"),
    ];
    assert_same(&rt, &found, &[("added", 0), ("drops", 1)]);
}

#[test]
fn pairs_are_lowered(rt: HostRuntime) {
    let alloc = rt.alloc();
    let body = lowered(
        alloc,
        b"(15 i1:p (16 (2) (3)) (6 i1:p))",
        "(15 i1:p (5 (5 (2) (5 (3) (3))) (3)) (6 i1:p))",
    );
    let signature = lowered(
        alloc,
        b"(5 (16 (2) (3)) (16 (2) (3)))",
        "(5 (5 (5 (2) (5 (3) (3))) (3)) (5 (5 (2) (5 (3) (3))) (3)))",
    );
    assert_same(&rt, &[body, signature], &[SAME; 2]);
}
