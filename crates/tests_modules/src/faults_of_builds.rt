//! Builds of several modules in which a call of the shelf or of the sink fails.

use crate::asserts::assert_same;
use crate::modules_imported::{A, B, MAIN};
use std::alloc::Global;
use sx_outside::{MemShelf, MemSink};
use sx_term::Text;
use tests_given::languages::LAM;
use tests_runs::files::{fail, join, lack, put_files};
use tests_runs::run::ends;

/// The files that the build of the three modules writes, in order.
const WRITTEN: [&str; 9] = [
    "B.base",
    "B.der",
    "B.int",
    "A.base",
    "A.der",
    "A.int",
    "Main.base",
    "Main.der",
    "Main.int",
];

/// The lines of the build.
const LINES: &[u8] = b"built B: 1 nodes\nbuilt A: 4 nodes\nbuilt Main: 6 nodes\n";

/// How many files are read before the first is written.
const READ: usize = 4;

/// Puts the language and the three modules.
fn put_sources(alloc: Global, shelf: &mut MemShelf) -> bool {
    put_files(alloc, &[&LAM, &B, &A, &MAIN], shelf)
}

/// Whether the build over the shelf ends so.
fn builds(alloc: Global, code: u8, told: &[u8], shelf: &mut MemShelf) -> bool {
    let mut out = MemSink::new(alloc);
    let is = ends(alloc, "build Main", shelf, &mut out, code, told);
    drop(out);
    is
}

/// Whether both shelves hold the same bytes under the name.
fn is_same(alloc: Global, name: &str, one: &MemShelf, other: &MemShelf) -> bool {
    match Text::of_str(alloc, name) {
        Ok(name) => {
            let is = one.get(&name).is_some() && one.get(&name) == other.get(&name);
            drop(name);
            is
        }
        Err(_) => false,
    }
}

/// Whether both shelves hold the same bytes under the names.
fn are_same(alloc: Global, names: &[&str], one: &MemShelf, other: &MemShelf) -> bool {
    for name in names {
        if !is_same(alloc, name, one, other) {
            return false;
        }
    }
    true
}

/// Whether the build ends so where the call of the shelf with this number fails.
fn breaks(alloc: Global, call: u64, code: u8, told: &[u8], shelf: &mut MemShelf) -> bool {
    put_sources(alloc, shelf) && fail(alloc, &[call], shelf) && builds(alloc, code, told, shelf)
}

/// Whether the build that fails at this read tells of the file, and writes none.
fn is_read_fault(alloc: Global, call: u64, told: &[u8]) -> bool {
    let mut shelf = MemShelf::new(alloc);
    let is = breaks(alloc, call, 3, told, &mut shelf) && lack(alloc, &WRITTEN, &shelf);
    drop(shelf);
    is
}

/// Whether the build that fails at the write of this file leaves those before it whole and writes
/// none behind it, and a second build over what it left is as one over a new shelf.
fn is_write_fault(alloc: Global, number: usize, told: &[u8], whole: &MemShelf) -> bool {
    if number >= WRITTEN.len() {
        return false;
    }
    let (before, from) = WRITTEN.split_at(number);
    let (_, behind) = from.split_at(1);
    let mut shelf = MemShelf::new(alloc);
    let is = breaks(alloc, (READ + number + 1) as u64, 4, told, &mut shelf)
        && are_same(alloc, before, whole, &shelf)
        && lack(alloc, behind, &shelf)
        && builds(alloc, 0, LINES, &mut shelf)
        && are_same(alloc, &WRITTEN, whole, &shelf);
    drop(shelf);
    is
}

/// So for each of the files.
fn are_write_faults(alloc: Global, whole: &MemShelf) -> bool {
    for i in 0..WRITTEN.len() {
        let mut told = Vec::new(alloc);
        let is = join(
            &[b"soundx: ", WRITTEN[i].as_bytes(), b": write fault\n"],
            &mut told,
        ) && is_write_fault(alloc, i, &told, whole);
        drop(told);
        if !is {
            return false;
        }
    }
    true
}

#[test]
fn a_read_that_fails(rt: HostRuntime) {
    let alloc = rt.alloc();
    let hold = [
        is_read_fault(alloc, 1, b"soundx: Main.mod: read fault\n"),
        is_read_fault(alloc, 2, b"soundx: A.mod: read fault\n"),
        is_read_fault(alloc, 3, b"soundx: B.mod: read fault\n"),
        is_read_fault(alloc, 4, b"soundx: Lam.lang: read fault\n"),
    ];
    assert_same(&rt, &hold, &[true; 4]);
}

#[test]
fn a_write_that_fails(rt: HostRuntime) {
    let alloc = rt.alloc();
    let mut whole = MemShelf::new(alloc);
    let is = put_sources(alloc, &mut whole)
        && builds(alloc, 0, LINES, &mut whole)
        && are_write_faults(alloc, &whole);
    drop(whole);
    assert!(rt; is);
}

/// Whether the build ends as a failed write where the sink fails, which got nothing, and leaves all
/// files whole.
fn ends_without_lines(alloc: Global, whole: &MemShelf) -> bool {
    let mut shelf = MemShelf::new(alloc);
    let mut out = MemSink::new(alloc);
    let is = match Vec::from_slice(alloc, &[1]) {
        Ok(calls) => {
            out.fail(calls);
            put_sources(alloc, &mut shelf)
                && ends(alloc, "build Main", &mut shelf, &mut out, 4, b"")
                && are_same(alloc, &WRITTEN, whole, &shelf)
        }
        Err(_) => false,
    };
    drop(out);
    drop(shelf);
    is
}

#[test]
fn a_sink_that_fails(rt: HostRuntime) {
    let alloc = rt.alloc();
    let mut whole = MemShelf::new(alloc);
    let is = put_sources(alloc, &mut whole)
        && builds(alloc, 0, LINES, &mut whole)
        && ends_without_lines(alloc, &whole);
    drop(whole);
    assert!(rt; is);
}
