//! Runs of `build` that are refused, or whose derivation passes a budget.

use crate::asserts::assert_same;
use crate::language::Language;
use crate::modules_built::put_bracketed;
use crate::samples::{AMB, CYCLIC, LAM, LOOP};
use std::alloc::Global;
use sx_outside::{MemShelf, MemSink};
use tests_runs::files::{lack, put};
use tests_runs::run::ends;

/// Whether a module of the language of functions with this body is refused with this line.
fn is_refused(alloc: Global, body: &[u8], told: &[u8]) -> bool {
    LAM.stops(alloc, "build Main", body, 1, told)
}

#[test]
fn modules_that_are_refused(rt: HostRuntime) {
    let alloc = rt.alloc();
    let name = b"soundx: Main.mod: line 4 column 1: no rule concludes [] @ x : _\n";
    let number = b"soundx: Main.mod: line 4 column 1: [] |- 1 : Int \
        is not what premise 1 of T-App asks for\n";
    let bracket = b"soundx: Main.mod: line 4 column 3: no reading\n";
    let string = b"soundx: Main.mod: line 4 column 1: string without end\n";
    let hold = [
        is_refused(alloc, b"x", name),
        is_refused(alloc, b"1 2", number),
        is_refused(alloc, b"1 )", bracket),
        is_refused(alloc, b"\"a", string),
    ];
    assert_same(&rt, &hold, &[true; 4]);
}

/// Whether the command line, over the language and this module, is refused with this line.
fn is_file_refused(alloc: Global, line: &str, module: &[u8], told: &[u8]) -> bool {
    let mut shelf = MemShelf::new(alloc);
    let mut out = MemSink::new(alloc);
    let is = put(alloc, LAM.file, &LAM.text, &mut shelf)
        && put(alloc, "Main.mod", &[module], &mut shelf)
        && ends(alloc, line, &mut shelf, &mut out, 1, told)
        && lack(alloc, &["Main.base", "Main.der", "Main.int"], &shelf);
    drop(out);
    drop(shelf);
    is
}

#[test]
fn module_files_that_are_refused(rt: HostRuntime) {
    let alloc = rt.alloc();
    let header = b"soundx: Main.mod: line 1: bad header\n";
    let not_utf8 = b"soundx: Main.mod: not UTF-8 at byte 0\n";
    let absent = b"soundx: Other.mod: absent\n";
    let hold = [
        is_file_refused(alloc, "build Main", b"", header),
        is_file_refused(alloc, "build Main", &[255], not_utf8),
        is_file_refused(alloc, "build Other", b"", absent),
    ];
    assert_same(&rt, &hold, &[true; 3]);
}

#[test]
fn modules_that_need_other_files(rt: HostRuntime) {
    let alloc = rt.alloc();
    let no_import = b"soundx: A.mod: absent\n";
    let none = b"soundx: Let.ext: absent\n";
    let uses = b"module Main\nlanguage Lam\nuse Let\n---\n1\n";
    let imports = b"module Main\nlanguage Lam\nimport A\n---\n1\n";
    let other = b"module Main\nlanguage Lim\n---\n1\n";
    let absent = b"soundx: Lim.lang: absent\n";
    let hold = [
        is_file_refused(alloc, "build Main", uses, none),
        is_file_refused(alloc, "build Main", imports, no_import),
        is_file_refused(alloc, "build Main", other, absent),
    ];
    assert_same(&rt, &hold, &[true; 3]);
}

#[test]
fn modules_without_an_end(rt: HostRuntime) {
    let alloc = rt.alloc();
    let deep = b"soundx: Main.mod: derivation deeper than 3000\n";
    let spent = b"soundx: Main.mod: more than 100 tries\n";
    let hold = [
        LOOP.stops(alloc, "build Main", b"1", 6, deep),
        LOOP.stops(alloc, "build --tries=100 Main", b"1", 6, spent),
    ];
    assert_same(&rt, &hold, &[true; 2]);
}

#[test]
fn modules_with_two_readings(rt: HostRuntime) {
    let alloc = rt.alloc();
    let printed = b"soundx: Main.mod: printed text has two readings: \
        plus(num(1),plus(num(2),num(3))) and plus(plus(num(1),num(2)),num(3))\n";
    let written = b"soundx: Main.mod: two readings: \
        plus(num(1),plus(num(2),num(3))) and plus(plus(num(1),num(2)),num(3))\n";
    let hold = [
        AMB.stops(alloc, "build Main", b"( 1 + 2 ) + 3", 1, printed),
        AMB.stops(alloc, "build Main", b"1 + 2 + 3", 1, written),
    ];
    assert_same(&rt, &hold, &[true; 2]);
}

/// Whether a module of the language `Few` with this text is refused with this line.
fn is_language_refused(alloc: Global, text: &'static [u8], told: &[u8]) -> bool {
    let few = Language {
        file: "Few.lang",
        text: [text, b""],
        header: b"module Main\nlanguage Few\n---\n",
    };
    few.stops(alloc, "build Main", b"1", 1, told)
}

#[test]
fn languages_that_are_refused(rt: HostRuntime) {
    let alloc = rt.alloc();
    let sorts = b"language Few\nsort A plain\nsort B plain\n";
    let main = b"soundx: Few.lang: line 4: main\n";
    let head = b"soundx: Few.lang: line 1: head\n";
    let hold = [
        is_language_refused(alloc, sorts, main),
        is_language_refused(alloc, b"language Other\n", head),
    ];
    assert_same(&rt, &hold, &[true; 2]);
}

#[test]
fn a_language_that_ends_inside_a_rule(rt: HostRuntime) {
    let told = b"soundx: Few.lang: line 2: unfinished\n";
    assert!(rt; is_language_refused(rt.alloc(), b"language Few\nrule R\n", told));
}

#[test]
fn a_sort_that_derives_itself(rt: HostRuntime) {
    let told = b"soundx: Lam.lang: sort Exp is cyclic\n";
    assert!(rt; CYCLIC.stops(rt.alloc(), "build Main", b"1", 1, told));
}

#[test]
fn a_body_that_is_too_deep(rt: HostRuntime) {
    let alloc = rt.alloc();
    let mut body = Vec::new(alloc);
    let told = b"soundx: Main.mod: depth 1001 is over 1000\n";
    let is = put_bracketed(999, &mut body) && is_refused(alloc, body.as_slice(), told);
    drop(body);
    assert!(rt; is);
}
