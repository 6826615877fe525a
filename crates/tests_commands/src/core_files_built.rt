//! Runs of `build --core`: what is written, and within how many tries.

use crate::asserts::assert_same;
use crate::samples::{LEAVES, LISTS, ONE, PAIR, REPEAT, SIGNATURE};
use std::alloc::Global;
use sx_outside::{MemShelf, MemSink};
use tests_runs::files::{holds, lack, put};
use tests_runs::run::ends;

/// The three texts that a run writes.
#[derive(Clone, Copy)]
struct Texts {
    base: &'static [u8],
    list: &'static [u8],
    interface: &'static [u8],
}

/// Whether building the core file of these parts ends with this line, and leaves these three texts.
fn leaves(alloc: Global, parts: &[&[u8]], texts: &Texts, told: &[u8]) -> bool {
    let mut shelf = MemShelf::new(alloc);
    let mut out = MemSink::new(alloc);
    let is = put(alloc, "C.core", parts, &mut shelf)
        && ends(alloc, "build --core C", &mut shelf, &mut out, 0, told)
        && holds(alloc, "C.base", texts.base, &shelf)
        && holds(alloc, "C.der", texts.list, &shelf)
        && holds(alloc, "C.int", texts.interface, &shelf);
    drop(out);
    drop(shelf);
    is
}

#[test]
fn a_goal_by_one_rule(rt: HostRuntime) {
    let texts = Texts {
        base: b"(0)\n",
        list: b"sxder 1\nT-One\n",
        interface: b"(1)\n",
    };
    assert!(rt; leaves(rt.alloc(), &[ONE], &texts, b"built C: 1 nodes\n"));
}

#[test]
fn a_goal_by_premises(rt: HostRuntime) {
    let parts = [SIGNATURE, LEAVES, PAIR, b"goal f (1 (0) (0))\n".as_slice()];
    let texts = Texts {
        base: b"(1 (0) (0))\n",
        list: b"sxder 1\nP\nZ1\nZ1\n",
        interface: b"(2)\n",
    };
    assert!(rt; leaves(rt.alloc(), &parts, &texts, b"built C: 3 nodes\n"));
}

#[test]
fn another_answer_of_a_premise(rt: HostRuntime) {
    let texts = Texts {
        base: b"(2 (0) (1 (4)))\n",
        list: b"sxder 1\nCons\nNullS\nNil\n",
        interface: b"(5 (4))\n",
    };
    assert!(rt; leaves(rt.alloc(), &[LISTS], &texts, b"built C: 3 nodes\n"));
}

/// Whether building the core file of these parts is done by this command line, with this line.
fn is_done(alloc: Global, line: &str, parts: &[&[u8]], told: &[u8]) -> bool {
    let mut shelf = MemShelf::new(alloc);
    let mut out = MemSink::new(alloc);
    let is = put(alloc, "C.core", parts, &mut shelf)
        && ends(alloc, line, &mut shelf, &mut out, 0, told);
    drop(out);
    drop(shelf);
    is
}

/// Whether building these parts by this command line passes its budget, and nothing is written.
fn is_spent(alloc: Global, line: &str, parts: &[&[u8]], told: &[u8]) -> bool {
    let mut shelf = MemShelf::new(alloc);
    let mut out = MemSink::new(alloc);
    let is = put(alloc, "C.core", parts, &mut shelf)
        && ends(alloc, line, &mut shelf, &mut out, 6, told)
        && lack(alloc, &["C.base", "C.der", "C.int"], &shelf);
    drop(out);
    drop(shelf);
    is
}

#[test]
fn tries_that_are_spent(rt: HostRuntime) {
    let alloc = rt.alloc();
    let parts = [SIGNATURE, LEAVES, PAIR, b"goal f (1 (0) (0))\n".as_slice()];
    let spent = b"soundx: C.core: more than 4 tries\n";
    let done = b"built C: 3 nodes\n";
    let hold = [
        is_spent(alloc, "build --core --tries=4 C", &parts, spent),
        is_done(alloc, "build --core --tries=5 C", &parts, done),
    ];
    assert_same(&rt, &hold, &[true; 2]);
}

#[test]
fn tries_of_another_answer(rt: HostRuntime) {
    let alloc = rt.alloc();
    let spent = b"soundx: C.core: more than 12 tries\n";
    let done = b"built C: 3 nodes\n";
    let hold = [
        is_spent(alloc, "build --core --tries=12 C", &[LISTS], spent),
        is_done(alloc, "build --core --tries=13 C", &[LISTS], done),
    ];
    assert_same(&rt, &hold, &[true; 2]);
}

#[test]
fn an_endless_rule_before_and_after_a_leaf(rt: HostRuntime) {
    let alloc = rt.alloc();
    let after = [SIGNATURE, LEAVES, REPEAT, b"goal f (0)\n".as_slice()];
    let before = [SIGNATURE, REPEAT, LEAVES, b"goal f (0)\n".as_slice()];
    let spent = b"soundx: C.core: more than 100 tries\n";
    let hold = [
        is_done(alloc, "build --core C", &after, b"built C: 1 nodes\n"),
        is_spent(alloc, "build --core --tries=100 C", &before, spent),
    ];
    assert_same(&rt, &hold, &[true; 2]);
}

#[test]
fn a_derivation_that_is_too_deep(rt: HostRuntime) {
    let goal = b"goal f (1 (0) (0))\n".as_slice();
    let parts = [SIGNATURE, REPEAT, LEAVES, PAIR, goal];
    let deep = b"soundx: C.core: derivation deeper than 3000\n";
    assert!(rt; is_spent(rt.alloc(), "build --core C", &parts, deep));
}
