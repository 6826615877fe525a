//! The lines of a text, and those that are kept.

use crate::asserts::assert_same;
use sx_lines::{Line, NoLine, Rest};

/// The line behind so many others, or what stands there in its place.
fn line_behind(bytes: &[u8], before: u32) -> Result<Line, NoLine> {
    let mut rest = Rest::all(bytes);
    for _ in 0..before {
        match rest.next() {
            Ok((_, after)) => rest = after,
            Err(e) => return Err(e),
        }
    }
    match rest.next() {
        Ok((line, _)) => Ok(line),
        Err(e) => Err(e),
    }
}

/// Whether the line has this number and this text.
fn is_line(line: Result<Line, NoLine>, number: u32, text: &[u8]) -> bool {
    match line {
        Ok(line) => line.number == number && line.text == text,
        Err(_) => false,
    }
}

/// The number that a further line would have, where none is left.
fn number_of_none(line: Result<Line, NoLine>) -> Option<u32> {
    match line {
        Ok(_) => None,
        Err(e) => Some(e.number),
    }
}

#[test]
fn lines_of_a_text(rt: HostRuntime) {
    let bytes = b"one\ntwo\r\n\nfour\r";
    let hold = [
        is_line(line_behind(bytes, 0), 1, b"one"),
        is_line(line_behind(bytes, 1), 2, b"two"),
        is_line(line_behind(bytes, 2), 3, b""),
        is_line(line_behind(bytes, 3), 4, b"four\r"),
        number_of_none(line_behind(bytes, 4)) == Some(5),
    ];
    assert_same(&rt, &hold, &[true; 5]);
}

/// The kept line behind so many others, or what stands there in its place.
fn kept_behind(bytes: &[u8], before: u32) -> Result<Line, NoLine> {
    let mut rest = Rest::all(bytes);
    for _ in 0..before {
        match rest.next_kept() {
            Ok((_, after)) => rest = after,
            Err(e) => return Err(e),
        }
    }
    match rest.next_kept() {
        Ok((line, _)) => Ok(line),
        Err(e) => Err(e),
    }
}

#[test]
fn kept_lines(rt: HostRuntime) {
    let bytes = b"// a comment\n \t\n /not\n//\n";
    let hold = [
        is_line(kept_behind(bytes, 0), 3, b" /not"),
        number_of_none(kept_behind(bytes, 1)) == Some(5),
    ];
    assert_same(&rt, &hold, &[true; 2]);
}
