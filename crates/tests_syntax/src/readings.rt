//! Texts with one reading at most.

use crate::asserts::assert_same;
use crate::renumbered::Cut;
use crate::samples::Sample;
use crate::symbols::nested;
use crate::told::{is_cut_read_as, is_read_as};
use std::alloc::Global;

#[test]
fn one_reading(rt: HostRuntime) {
    let row = b"seq(1,seq(2,last(3)))".as_slice();
    let sum = b"plus(plus(last(1),last(2)),last(3))".as_slice();
    let hold = [
        is_read_as(rt.alloc(), Sample::Rows, b"1 2 3", row),
        is_read_as(rt.alloc(), Sample::Sums(51), b"1 + 2 + 3", sum),
    ];
    assert_same(&rt, &hold, &[true; 2]);
}

#[test]
fn no_reading(rt: HostRuntime) {
    let second = b"no reading beyond token 2".as_slice();
    let start = b"no reading beyond token 0".as_slice();
    let hold = [
        is_read_as(rt.alloc(), Sample::Sums(50), b"1 + + 2 3", second),
        is_read_as(rt.alloc(), Sample::Sums(50), b"1 +", second),
        is_read_as(rt.alloc(), Sample::Sums(50), b"", start),
    ];
    assert_same(&rt, &hold, &[true; 3]);
}

/// A sum whose sign has the number.
fn sum(number: u32) -> Cut<'static> {
    Cut {
        by: Sample::Sums(51),
        bytes: b"1 + 2",
        number,
    }
}

/// Two numbers with a literal between them that the sums lack, under this number.
fn colon(number: u32) -> Cut<'static> {
    Cut {
        by: Sample::Functions,
        bytes: b"1 : 2",
        number,
    }
}

/// The literals of sums are `(`, `)` and `+`. A literal with another's number or a number past all
/// is read by its text.
#[test]
fn literals_under_other_numbers(rt: HostRuntime) {
    let words = b"plus(last(1),last(2))".as_slice();
    let hold = [
        is_cut_read_as(rt.alloc(), Sample::Sums(51), sum(0), words),
        is_cut_read_as(rt.alloc(), Sample::Sums(51), sum(7), words),
    ];
    assert_same(&rt, &hold, &[true; 2]);
}

#[test]
fn literals_that_the_grammar_lacks(rt: HostRuntime) {
    let words = b"no reading beyond token 1".as_slice();
    let hold = [
        is_cut_read_as(rt.alloc(), Sample::Sums(51), colon(2), words),
        is_cut_read_as(rt.alloc(), Sample::Sums(51), colon(7), words),
    ];
    assert_same(&rt, &hold, &[true; 2]);
}

/// Whether so many bracket pairs round a number have their one reading.
fn are_read(alloc: Global, count: usize) -> bool {
    let words = nested(alloc, b"[", count, b"last(1)", b"]");
    let are = are_read_as(alloc, count, &words);
    drop(words);
    are
}

/// Whether so many bracket pairs round a number are read as these words.
fn are_read_as(alloc: Global, count: usize, words: &[u8]) -> bool {
    let bytes = nested(alloc, b"(", count, b"1", b")");
    let are = is_read_as(alloc, Sample::Rows, &bytes, words);
    drop(bytes);
    are
}

#[test]
fn depths(rt: HostRuntime) {
    let hold = [
        are_read(rt.alloc(), 998),
        are_read_as(rt.alloc(), 999, b"depth 1001"),
    ];
    assert_same(&rt, &hold, &[true; 2]);
}

/// Whether so many numbers, each at the head of the others, are read as these words.
fn numbers_are_read_as(alloc: Global, count: usize, words: &[u8]) -> bool {
    let bytes = nested(alloc, b"1 ", count, b"", b"");
    let are = is_read_as(alloc, Sample::Rows, &bytes, words);
    drop(bytes);
    are
}

#[test]
fn too_many_items(rt: HostRuntime) {
    let words = b"more items than 2000000".as_slice();
    assert!(rt; numbers_are_read_as(rt.alloc(), 3000, words));
}

#[test]
fn brackets_stay_in_a_reading(rt: HostRuntime) {
    let words = b"plus([plus(last(1),last(2))],last(3))".as_slice();
    let hold = [
        is_read_as(rt.alloc(), Sample::Sums(50), b"( 1 + 2 ) + 3", words),
        is_read_as(rt.alloc(), Sample::Sums(51), b"( 1 + 2 ) + 3", words),
    ];
    assert_same(&rt, &hold, &[true; 2]);
}

#[test]
fn a_chain_of_sorts(rt: HostRuntime) {
    let hold = [
        is_read_as(rt.alloc(), Sample::Chain, b"1", b"up(last(1))"),
        is_read_as(rt.alloc(), Sample::Chain, b"", b"up(none)"),
    ];
    assert_same(&rt, &hold, &[true; 2]);
}
