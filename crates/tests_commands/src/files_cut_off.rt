//! Runs over each front of a file: each is done, or refused with a line.

use crate::asserts::assert_same;
use crate::samples::ONE;
use std::alloc::Global;
use sx_outside::{MemShelf, MemSink};
use sx_term::Text;
use tests_given::File;
use tests_given::extensions::LET;
use tests_given::languages::LAM;
use tests_runs::files::{put, put_files};
use tests_runs::run::code_of;

/// A module that uses an extension.
const NAMED: File = File {
    name: "Main.mod",
    text: b"module Main\nlanguage Lam\nuse Let\n---\nlet x = 1 in x\n",
};

/// Whether the run over the shelf is done, or refused with a line.
fn is_answered(alloc: Global, line: &str, shelf: &mut MemShelf) -> bool {
    let mut out = MemSink::new(alloc);
    let is = match code_of(alloc, line, shelf, &mut out) {
        Some(0) => true,
        Some(1) => out.written().starts_with(b"soundx: "),
        _ => false,
    };
    drop(out);
    is
}

/// Whether the run over these files, with a front of the text under this name, is so.
fn is_answered_over(alloc: Global, files: &[&File], name: &str, front: &[u8], line: &str) -> bool {
    let mut shelf = MemShelf::new(alloc);
    let is = put_files(alloc, files, &mut shelf)
        && put(alloc, name, &[front], &mut shelf)
        && is_answered(alloc, line, &mut shelf);
    drop(shelf);
    is
}

/// Whether it is so of each front of the text.
fn are_answered(alloc: Global, files: &[&File], name: &str, text: &[u8], line: &str) -> bool {
    for length in 0..text.len() {
        if !is_answered_over(alloc, files, name, &text[..length], line) {
            return false;
        }
    }
    true
}

#[test]
fn sources_that_are_cut_off(rt: HostRuntime) {
    let alloc = rt.alloc();
    let hold = [
        are_answered(alloc, &[], "One.core", ONE, "build --core One"),
        are_answered(alloc, &[&LET, &NAMED], LAM.name, LAM.text, "build Main"),
        are_answered(alloc, &[&LAM], LET.name, LET.text, "check Let"),
        are_answered(alloc, &[&LAM, &LET], NAMED.name, NAMED.text, "build Main"),
    ];
    assert_same(&rt, &hold, &[true; 4]);
}

/// Whether `verify` is so over the shelf, on which a module was built, with each front of what
/// stands there under this name.
fn are_verified(alloc: Global, name: &str, whole: &MemShelf, shelf: &mut MemShelf) -> bool {
    match Text::of_str(alloc, name) {
        Ok(text) => {
            let is = match whole.get(&text) {
                Some(bytes) => are_verified_over(alloc, name, bytes, shelf),
                None => false,
            };
            drop(text);
            is
        }
        Err(_) => false,
    }
}

/// So with these bytes, which are put whole in the end.
fn are_verified_over(alloc: Global, name: &str, bytes: &[u8], shelf: &mut MemShelf) -> bool {
    for length in 0..bytes.len() {
        if !(put(alloc, name, &[&bytes[..length]], shelf)
            && is_answered(alloc, "verify Main", shelf))
        {
            return false;
        }
    }
    put(alloc, name, &[bytes], shelf)
}

/// Puts the files of the module, and builds it.
fn build(alloc: Global, shelf: &mut MemShelf) -> bool {
    put_files(alloc, &[&LAM, &LET, &NAMED], shelf) && is_answered(alloc, "build Main", shelf)
}

#[test]
fn written_files_that_are_cut_off(rt: HostRuntime) {
    let alloc = rt.alloc();
    let mut whole = MemShelf::new(alloc);
    let mut shelf = MemShelf::new(alloc);
    let hold = [
        build(alloc, &mut whole) && build(alloc, &mut shelf),
        are_verified(alloc, "Main.int", &whole, &mut shelf),
        are_verified(alloc, "Main.der", &whole, &mut shelf),
        are_verified(alloc, "Main.base", &whole, &mut shelf),
    ];
    drop(shelf);
    drop(whole);
    assert_same(&rt, &hold, &[true; 4]);
}
