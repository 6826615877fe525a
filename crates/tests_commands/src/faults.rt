//! Runs in which a call of the shelf or of the sink fails.

use crate::asserts::assert_same;
use crate::samples::{LAM, ONE};
use std::alloc::Global;
use sx_outside::{MemShelf, MemSink};
use tests_runs::files::{fail, holds, lack, put};
use tests_runs::run::ends;

/// Whether building `One` ends so where the shelf's call with this number fails.
fn ends_core(alloc: Global, call: u64, code: u8, told: &[u8], shelf: &mut MemShelf) -> bool {
    let mut out = MemSink::new(alloc);
    let is = put(alloc, "One.core", &[ONE], shelf)
        && fail(alloc, &[call], shelf)
        && ends(alloc, "build --core One", shelf, &mut out, code, told);
    drop(out);
    is
}

#[test]
fn a_write_of_a_core_file_that_fails(rt: HostRuntime) {
    let alloc = rt.alloc();
    let mut shelf = MemShelf::new(alloc);
    let is = ends_core(alloc, 2, 4, b"soundx: One.base: write fault\n", &mut shelf)
        && holds(alloc, "One.base", b"(0", &shelf)
        && lack(alloc, &["One.der"], &shelf);
    drop(shelf);
    assert!(rt; is);
}

#[test]
fn a_read_of_a_core_file_that_fails(rt: HostRuntime) {
    let alloc = rt.alloc();
    let mut shelf = MemShelf::new(alloc);
    let is = ends_core(alloc, 1, 3, b"soundx: One.core: read fault\n", &mut shelf)
        && lack(alloc, &["One.base"], &shelf);
    drop(shelf);
    assert!(rt; is);
}

/// The same for a module, of which no interface is written.
fn ends_module(alloc: Global, call: u64, code: u8, told: &[u8], shelf: &mut MemShelf) -> bool {
    let mut out = MemSink::new(alloc);
    let is = LAM.put(alloc, b"1", shelf)
        && fail(alloc, &[call], shelf)
        && ends(alloc, "build Main", shelf, &mut out, code, told)
        && lack(alloc, &["Main.int"], shelf);
    drop(out);
    is
}

/// The same over a shelf of its own.
fn is_fault(alloc: Global, call: u64, code: u8, told: &[u8]) -> bool {
    let mut shelf = MemShelf::new(alloc);
    let is = ends_module(alloc, call, code, told, &mut shelf);
    drop(shelf);
    is
}

#[test]
fn faults_of_a_module(rt: HostRuntime) {
    let alloc = rt.alloc();
    let hold = [
        is_fault(alloc, 1, 3, b"soundx: Main.mod: read fault\n"),
        is_fault(alloc, 2, 3, b"soundx: Lam.lang: read fault\n"),
        is_fault(alloc, 3, 4, b"soundx: Main.base: write fault\n"),
        is_fault(alloc, 4, 4, b"soundx: Main.der: write fault\n"),
    ];
    assert_same(&rt, &hold, &[true; 4]);
}

#[test]
fn what_a_failed_write_leaves(rt: HostRuntime) {
    let alloc = rt.alloc();
    let mut shelf = MemShelf::new(alloc);
    let base = b"module Main\nlanguage Lam\n---\n1\n";
    // The first half of the 14 bytes of the list.
    let half = b"sxder 1";
    let is = ends_module(alloc, 4, 4, b"soundx: Main.der: write fault\n", &mut shelf)
        && holds(alloc, "Main.base", base, &shelf)
        && holds(alloc, "Main.der", half, &shelf);
    drop(shelf);
    assert!(rt; is);
}

/// Whether a run over `One` ends as a failed write where the sink fails, which got nothing.
fn ends_without_line(alloc: Global, line: &str, shelf: &mut MemShelf) -> bool {
    let mut out = MemSink::new(alloc);
    let is = match Vec::from_slice(alloc, &[1]) {
        Ok(calls) => {
            out.fail(calls);
            put(alloc, "One.core", &[ONE], shelf) && ends(alloc, line, shelf, &mut out, 4, b"")
        }
        Err(_) => false,
    };
    drop(out);
    is
}

#[test]
fn a_sink_that_fails_on_a_refusal(rt: HostRuntime) {
    let alloc = rt.alloc();
    let mut shelf = MemShelf::new(alloc);
    let is = ends_without_line(alloc, "build --core Two", &mut shelf)
        && lack(alloc, &["Two.base", "Two.der", "Two.int"], &shelf);
    drop(shelf);
    assert!(rt; is);
}

#[test]
fn a_sink_that_fails_on_what_was_built(rt: HostRuntime) {
    let alloc = rt.alloc();
    let mut shelf = MemShelf::new(alloc);
    let is = ends_without_line(alloc, "build --core One", &mut shelf)
        && holds(alloc, "One.base", b"(0)\n", &shelf)
        && holds(alloc, "One.der", b"sxder 1\nT-One\n", &shelf)
        && holds(alloc, "One.int", b"(1)\n", &shelf);
    drop(shelf);
    assert!(rt; is);
}
