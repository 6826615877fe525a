//! Runs of `verify --core`.

use crate::asserts::assert_same;
use crate::samples::PAIRS;
use std::alloc::Global;
use sx_outside::{MemShelf, MemSink};
use tests_runs::files::{holds, put};
use tests_runs::run::ends;

const BASE: &[u8] = b"(2 (0) (0))\n";

const LIST: &[u8] = b"sxder 1\nT-Pair\nT-One\nT-One\n";

const INTERFACE: &[u8] = b"(3)\n";

/// Puts the core file, and answers whether memory was there for it.
fn put_core(alloc: Global, shelf: &mut MemShelf) -> bool {
    put(alloc, "P.core", &[PAIRS], shelf)
}

/// Whether the core file is built, and then verified.
fn is_verified(alloc: Global, shelf: &mut MemShelf, out: &mut MemSink) -> bool {
    let built = b"built P: 3 nodes\n";
    let verified = b"built P: 3 nodes\nverified P: 3 nodes\n";
    put_core(alloc, shelf)
        && ends(alloc, "build --core P", shelf, out, 0, built)
        && holds(alloc, "P.base", BASE, shelf)
        && holds(alloc, "P.der", LIST, shelf)
        && holds(alloc, "P.int", INTERFACE, shelf)
        && ends(alloc, "verify --core P", shelf, out, 0, verified)
}

#[test]
fn what_was_built(rt: HostRuntime) {
    let alloc = rt.alloc();
    let mut shelf = MemShelf::new(alloc);
    let mut out = MemSink::new(alloc);
    let is = is_verified(alloc, &mut shelf, &mut out);
    drop(out);
    drop(shelf);
    assert!(rt; is);
}

/// Texts that are verified.
#[derive(Clone, Copy)]
struct Texts {
    base: &'static [u8],
    list: &'static [u8],
    interface: &'static [u8],
}

/// Puts the texts, and answers whether memory was there for them.
fn put_texts(alloc: Global, texts: &Texts, shelf: &mut MemShelf) -> bool {
    put(alloc, "P.base", &[texts.base], shelf)
        && put(alloc, "P.der", &[texts.list], shelf)
        && put(alloc, "P.int", &[texts.interface], shelf)
}

/// Whether verifying these texts beside the core file ends with this exit code and this line.
fn comes(alloc: Global, texts: &Texts, code: u8, told: &[u8]) -> bool {
    let mut shelf = MemShelf::new(alloc);
    let mut out = MemSink::new(alloc);
    let is = put_core(alloc, &mut shelf)
        && put_texts(alloc, texts, &mut shelf)
        && ends(alloc, "verify --core P", &mut shelf, &mut out, code, told);
    drop(out);
    drop(shelf);
    is
}

/// Whether verifying this list is refused with this line.
fn is_list_refused(alloc: Global, list: &'static [u8], told: &[u8]) -> bool {
    let texts = Texts {
        base: BASE,
        list,
        interface: INTERFACE,
    };
    comes(alloc, &texts, 1, told)
}

#[test]
fn lists_that_fit_nothing(rt: HostRuntime) {
    let alloc = rt.alloc();
    let wrong = b"soundx: P.der: entry 1 fits no derivation\n";
    let later = b"soundx: P.der: entry 3 fits no derivation\n";
    let early = b"soundx: P.der: list ends early\n";
    let over = b"soundx: P.der: entry 4 is left over\n";
    let bad = b"soundx: P.der: line 2: bad entry\n";
    let hold = [
        is_list_refused(alloc, b"sxder 1\nT-One\n", wrong),
        is_list_refused(alloc, b"sxder 1\nT-Pair\nT-One\nT-Two\n", later),
        is_list_refused(alloc, b"sxder 1\n", early),
        is_list_refused(alloc, b"sxder 1\nT-Pair\nT-One\nT-One\nT-One\n", over),
        is_list_refused(alloc, b"sxder 1\nT-None\n", bad),
    ];
    assert_same(&rt, &hold, &[true; 5]);
}

#[test]
fn texts_that_differ(rt: HostRuntime) {
    let alloc = rt.alloc();
    let built = Texts {
        base: BASE,
        list: LIST,
        interface: INTERFACE,
    };
    let other_base = Texts {
        base: b"(0)\n",
        list: LIST,
        interface: INTERFACE,
    };
    let other_interface = Texts {
        base: BASE,
        list: LIST,
        interface: b"(3)",
    };
    let base = b"soundx: P.base: differs\n";
    let interface = b"soundx: P.int: differs\n";
    let hold = [
        comes(alloc, &other_base, 1, base),
        comes(alloc, &other_interface, 1, interface),
        comes(alloc, &built, 0, b"verified P: 3 nodes\n"),
    ];
    assert_same(&rt, &hold, &[true; 3]);
}

#[test]
fn files_that_are_absent(rt: HostRuntime) {
    let alloc = rt.alloc();
    let mut shelf = MemShelf::new(alloc);
    let mut out = MemSink::new(alloc);
    let told = b"soundx: P.base: absent\n";
    let is = put_core(alloc, &mut shelf)
        && ends(alloc, "verify --core P", &mut shelf, &mut out, 1, told);
    drop(out);
    drop(shelf);
    assert!(rt; is);
}
