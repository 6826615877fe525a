//! Runs that are refused: by their words, by bad lines of core files, and by stuck goals.

use crate::asserts::assert_same;
use crate::samples::{LEAVES, PAIR, SIGNATURE};
use std::alloc::Global;
use sx_outside::{MemShelf, MemSink};
use tests_runs::files::{lack, put};
use tests_runs::run::ends;

/// Whether building the core file of these parts is refused with this line, and nothing is written.
fn is_refused(alloc: Global, parts: &[&[u8]], told: &[u8]) -> bool {
    let mut shelf = MemShelf::new(alloc);
    let mut out = MemSink::new(alloc);
    let is = put(alloc, "C.core", parts, &mut shelf)
        && ends(alloc, "build --core C", &mut shelf, &mut out, 1, told)
        && lack(alloc, &["C.base", "C.der", "C.int"], &shelf);
    drop(out);
    drop(shelf);
    is
}

#[test]
fn goals_that_are_stuck(rt: HostRuntime) {
    let alloc = rt.alloc();
    let goal = b"goal f (1 (0) (0))\n".as_slice();
    let no_rule = b"soundx: C.core: no rule concludes f (0) _\n";
    let leaf = b"rule Z1\nthen f (0) (2)\nend\n".as_slice();
    let asks = b"rule Q Exp Exp\nif f ?0 (3)\nif f ?1 (2)\nthen f (1 ?0 ?1) (2)\nend\n".as_slice();
    let mismatch = b"soundx: C.core: f (0) (2) is not what premise 1 of Q asks for\n";
    let name = b"con n Exp id\n".as_slice();
    let differ = b"rule N id id\nnot ?0 ?1\nthen f (1 (4 ?0) (4 ?1)) (2)\nend\n".as_slice();
    let alike = b"goal f (1 (4 i1:x) (4 i1:x))\n".as_slice();
    let equal = b"soundx: C.core: f (1 (4 i1:x) (4 i1:x)) _: premise 1 of N does not hold\n";
    let hold = [
        is_refused(alloc, &[SIGNATURE, PAIR, goal], no_rule),
        is_refused(alloc, &[SIGNATURE, leaf, asks, goal], mismatch),
        is_refused(alloc, &[SIGNATURE, name, differ, alike], equal),
    ];
    assert_same(&rt, &hold, &[true; 3]);
}

#[test]
fn files_that_are_refused(rt: HostRuntime) {
    let alloc = rt.alloc();
    let short = b"con c\n".as_slice();
    let goal = b"goal f (0)\n".as_slice();
    let loose = b"rule R Exp\nthen f (0) (2)\nend\n".as_slice();
    let not_bound = b"soundx: C.core: rule R: ?0 is not bound\n";
    let twice = b"soundx: C.core: rule Z1 stands twice\n";
    let not_utf8 = b"soundx: C.core: not UTF-8 at byte 2\n";
    let hold = [
        is_refused(alloc, &[b"sxcore 2\n"], b"soundx: C.core: line 1: head\n"),
        is_refused(
            alloc,
            &[SIGNATURE, short],
            b"soundx: C.core: line 9: shape\n",
        ),
        is_refused(alloc, &[SIGNATURE], b"soundx: C.core: line 9: main\n"),
        is_refused(alloc, &[SIGNATURE, loose, goal], not_bound),
        is_refused(alloc, &[SIGNATURE, LEAVES, LEAVES, goal], twice),
        is_refused(alloc, &[&[b'a', b'\n', 255]], not_utf8),
    ];
    assert_same(&rt, &hold, &[true; 6]);
}

/// Whether building a core file of so many line feeds is refused with this line.
fn are_lines_refused(alloc: Global, lines: usize, told: &[u8]) -> bool {
    let mut core = Vec::new(alloc);
    let is = core.resize(lines, b'\n').is_ok() && is_refused(alloc, &[core.as_slice()], told);
    drop(core);
    is
}

#[test]
fn a_file_that_is_too_long(rt: HostRuntime) {
    let alloc = rt.alloc();
    let hold = [
        are_lines_refused(alloc, 262_145, b"soundx: C.core: too long\n"),
        are_lines_refused(alloc, 262_144, b"soundx: C.core: line 262145: head\n"),
    ];
    assert_same(&rt, &hold, &[true; 2]);
}

/// Whether the words are no command, with this line.
fn are_refused(alloc: Global, line: &str, told: &[u8]) -> bool {
    let mut shelf = MemShelf::new(alloc);
    let mut out = MemSink::new(alloc);
    let is = ends(alloc, line, &mut shelf, &mut out, 2, told);
    drop(out);
    drop(shelf);
    is
}

#[test]
fn words_that_are_no_command(rt: HostRuntime) {
    let alloc = rt.alloc();
    let hold = [
        are_refused(alloc, "", b"soundx: words: word 1\n"),
        are_refused(alloc, "build", b"soundx: words: word 2\n"),
        are_refused(alloc, "build --core 1x", b"soundx: words: word 3\n"),
        are_refused(alloc, "build --core One extra", b"soundx: words: word 4\n"),
    ];
    assert_same(&rt, &hold, &[true; 4]);
}

#[test]
fn commands_that_there_are_none_of(rt: HostRuntime) {
    let alloc = rt.alloc();
    let hold = [
        are_refused(alloc, "sample 0", b"soundx: words: word 2\n"),
        are_refused(alloc, "replay One", b"soundx: words: word 1\n"),
        are_refused(alloc, "verify --tries=5 One", b"soundx: words: word 2\n"),
        are_refused(alloc, "compile --core One", b"soundx: words: word 2\n"),
        are_refused(
            alloc,
            "build --audit=bogus:1 One",
            b"soundx: words: word 2\n",
        ),
        are_refused(
            alloc,
            "compile --audit=depth:0 One",
            b"soundx: words: word 2\n",
        ),
        are_refused(alloc, "check --core One", b"soundx: words: word 2\n"),
        are_refused(
            alloc,
            "build --core --nodes=5 One",
            b"soundx: words: word 3\n",
        ),
    ];
    assert_same(&rt, &hold, &[true; 8]);
}
