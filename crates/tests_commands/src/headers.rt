//! The headers of modules.

use crate::asserts::assert_same;
use std::alloc::Global;
use sx_interface::{Header, HeaderError, read_header};
use sx_term::Text;

/// What reading a header answers.
#[derive(Clone, Copy, PartialEq, Eq, Debug)]
enum Answer {
    Read,
    BadLine(u32),
    NotUtf8(usize),
    Other,
}

/// What reading the header of the module `Main` answers.
fn reading(alloc: Global, bytes: &[u8]) -> Answer {
    if bytes.len() > 1000 {
        return Answer::Other;
    }
    match Text::make(alloc, b"Main") {
        Ok(name) => {
            let read = read_header(alloc, &name, bytes);
            drop(name);
            let answer = match &read {
                Ok(_) => Answer::Read,
                Err(HeaderError::Header(line)) => Answer::BadLine(*line),
                Err(HeaderError::NotUtf8(before)) => Answer::NotUtf8(*before),
                Err(_) => Answer::Other,
            };
            drop(read);
            answer
        }
        Err(_) => Answer::Other,
    }
}

/// Whether the header is that of the test, before these bytes.
fn is_header(header: &Header, bytes: &[u8]) -> bool {
    let body = match bytes.get(header.body..) {
        Some(body) => body,
        None => return false,
    };
    header.language.bytes() == b"Lam".as_slice()
        && header.uses.len() == 1
        && header.imports.len() == 0
        && header.line == 7
        && body == b"let x = 1 in x\n".as_slice()
}

/// Whether the bytes begin with the header of the test.
fn has_header(alloc: Global, bytes: &[u8]) -> bool {
    if bytes.len() > 1000 {
        return false;
    }
    match Text::make(alloc, b"Main") {
        Ok(name) => {
            let read = read_header(alloc, &name, bytes);
            drop(name);
            let is = match &read {
                Ok(header) => is_header(header, bytes),
                Err(_) => false,
            };
            drop(read);
            is
        }
        Err(_) => false,
    }
}

#[test]
fn header_of_a_module(rt: HostRuntime) {
    let bytes = b"module Main\r\n// a comment\n\nlanguage Lam\nuse Let\n---\nlet x = 1 in x\n";
    assert!(rt; has_header(rt.alloc(), bytes));
}

#[test]
fn bad_headers(rt: HostRuntime) {
    let alloc = rt.alloc();
    let answers = [
        reading(alloc, b""),
        reading(alloc, b"module Other\n"),
        reading(alloc, b"module Main\n\nlanguage Lam\n"),
        reading(alloc, b"module Main\nlanguage Lam\nuse X\nuse X\n---\n"),
        reading(alloc, b"module Main\nlanguage Lam\nimport A\nuse X\n---\n"),
        reading(alloc, b"module Main\nlanguage  Lam\n---\n"),
        reading(alloc, b"module Main\nlanguage Lam\n---\n"),
        reading(alloc, &[b'm', 255]),
    ];
    let wanted = [
        Answer::BadLine(1),
        Answer::BadLine(1),
        Answer::BadLine(4),
        Answer::BadLine(4),
        Answer::BadLine(4),
        Answer::BadLine(2),
        Answer::Read,
        Answer::NotUtf8(1),
    ];
    assert_same(&rt, &answers, &wanted);
}
