//! The parts of a line: numbers, names, fronts and words.

use crate::asserts::assert_same;
use sx_lines::{after, count_of, is_name, number_within, split_word};

/// The number that the text spells.
fn number(text: &[u8]) -> Option<u64> {
    number_within(u64::MAX, text)
}

#[test]
fn numbers(rt: HostRuntime) {
    let found = [
        number(b"0"),
        number(b""),
        number(b"01"),
        number(b"00"),
        number(b"1000000"),
        number(b"18446744073709551615"),
        number(b"18446744073709551616"),
        number(b"+1"),
        number_within(300, b"301"),
    ];
    let wanted = &[
        Some(0),
        None,
        None,
        None,
        Some(1_000_000),
        Some(u64::MAX),
        None,
        None,
        None,
    ];
    assert_same(&rt, &found, wanted);
}

#[test]
fn counts(rt: HostRuntime) {
    let found = [
        count_of(300, b"1"),
        count_of(300, b"300"),
        count_of(300, b"0"),
        count_of(300, b"301"),
    ];
    assert_same(&rt, &found, &[Some(1), Some(300), None, None]);
}

#[test]
fn names(rt: HostRuntime) {
    let letters = [b'a'; 65];
    let hold = [
        is_name(false, &letters[..64]),
        !is_name(false, &letters),
        is_name(true, b"T-One"),
        !is_name(false, b"T-One"),
        !is_name(true, b"1a"),
        is_name(false, b"a_1"),
    ];
    assert_same(&rt, &hold, &[true; 6]);
}

/// Whether this follows the front in the text.
fn is_after(text: &[u8], front: &[u8], wanted: &[u8]) -> bool {
    match after(text, front) {
        Some(rest) => rest == wanted,
        None => false,
    }
}

/// Whether the text is split into this word and this rest.
fn is_split(text: &[u8], word: &[u8], rest: &[u8]) -> bool {
    let (first, others) = split_word(text);
    first == word && others == rest
}

#[test]
fn fronts_and_words(rt: HostRuntime) {
    let hold = [
        is_after(b"use Let", b"use ", b"Let"),
        after(b"us", b"use ").is_none(),
        is_split(b"Let  12", b"Let", b" 12"),
    ];
    assert_same(&rt, &hold, &[true; 3]);
}
