//! The plans of modules of small languages: what is printed of their bodies, and why they are
//! refused.

use crate::asserts::assert_same;
use crate::planning::planned_main;
use std::alloc::Global;
use std::test::*;
use sx_outside::MemShelf;
use sx_steps::{StepError, Work};
use tests_given::languages::{AMB, SUMS, SUMS_RULES};
use tests_runs::files::put;
use tests_runs::plans::{is_file, is_line};

/// A language of numbers.
const NUMBERS: &[u8] = br#"language Numbers
sort Env plain
sort Ty plain
sort Exp typed
prod nilenv Env 90 : "[]"
prod bind Env 10 : Env@10 "," id ":" Ty
prod int Ty 90 : "Int"
prod num Exp 90 : num
prod neg Exp 90 : "-" Exp@90
var C : Env
var n : num
form typing : in:Env "|-" sub:Exp ":" out:Ty
main typing nilenv bind
rule T-Num
---
~C |- ~n : Int
end
"#;

/// Puts the languages, and a module with this header and this body as `Main.mod`.
fn put_all(alloc: Global, header: &[u8], body: &[u8], shelf: &mut MemShelf) -> bool {
    put(alloc, "Numbers.lang", &[NUMBERS], shelf)
        && put(alloc, "Sums.lang", &[SUMS, SUMS_RULES], shelf)
        && put(alloc, "Amb.lang", &[AMB], shelf)
        && put(alloc, "Main.mod", &[header, body], shelf)
}

/// What comes of the module with this header and this body, within 100 tries and 100 nodes.
fn come_of(alloc: Global, header: &[u8], body: &[u8]) -> Result<Work, StepError> {
    let mut shelf = MemShelf::new(alloc);
    let answer = if put_all(alloc, header, body, &mut shelf) {
        planned_main(alloc, 100, &mut shelf)
    } else {
        Err(StepError::Memory)
    };
    drop(shelf);
    answer
}

/// Whether the module is refused by this line.
fn is_refused(alloc: Global, header: &[u8], body: &[u8], line: &[u8]) -> bool {
    let came = come_of(alloc, header, body);
    let answer = match &came {
        Err(StepError::Stopped(stop)) => is_line(alloc, stop, line),
        _ => false,
    };
    drop(came);
    answer
}

const OF_NUMBERS: &[u8] = b"module Main\nlanguage Numbers\n---\n";

/// Whether the plan is that of the number 12.
fn is_twelve(work: &Work) -> bool {
    is_file(
        work,
        0,
        "Main.base",
        b"module Main\nlanguage Numbers\n---\n12\n",
    ) && is_file(work, 1, "Main.der", b"sxder 1\nT-Num\n")
        && work.lines.as_slice() == b"built Main: 1 nodes\n".as_slice()
}

#[test]
fn a_module_is_planned(rt: HostRuntime) {
    let came = come_of(rt.alloc(), OF_NUMBERS, b"12");
    let is = match &came {
        Ok(work) => is_twelve(work),
        Err(_) => false,
    };
    drop(came);
    assert!(rt; is);
}

#[test]
fn a_module_without_a_type_is_not(rt: HostRuntime) {
    let told = b"soundx: Main.mod: line 4 column 1: no rule concludes [] |- - 12 : _\n";
    assert!(rt; is_refused(rt.alloc(), OF_NUMBERS, b"- 12\n", told));
}

const OF_SUMS: &[u8] = b"module Main\nlanguage Sums\n---\n";

/// Whether this is the base program of the module of the language `Sums` with this body.
fn prints(alloc: Global, body: &[u8], base: &[u8]) -> bool {
    let came = come_of(alloc, OF_SUMS, body);
    let answer = match &came {
        Ok(work) => is_file(work, 0, "Main.base", base),
        Err(_) => false,
    };
    drop(came);
    answer
}

#[test]
fn prints_have_the_brackets_that_are_due(rt: HostRuntime) {
    let alloc = rt.alloc();
    let two = b"module Main\nlanguage Sums\n---\n1 + 2\n";
    let left = b"module Main\nlanguage Sums\n---\n1 + 2 + 3\n";
    let right = b"module Main\nlanguage Sums\n---\n1 + ( 2 + 3 )\n";
    let hold = [
        prints(alloc, b"( ( 1 ) )+2 // a comment", two),
        prints(alloc, b"( 1 + 2 ) + 3", left),
        prints(alloc, b"1+(2+3)", right),
    ];
    assert_same(&rt, &hold, &[true; 3]);
}

/// Whether the body of a module of the language `Sums` is refused by this line.
fn refuses(alloc: Global, body: &[u8], line: &[u8]) -> bool {
    is_refused(alloc, OF_SUMS, body, line)
}

#[test]
fn bodies_that_are_not_read(rt: HostRuntime) {
    let alloc = rt.alloc();
    let inside = b"soundx: Main.mod: line 4 column 6: no reading\n";
    let end = b"soundx: Main.mod: line 4 column 5: no reading\n";
    let sign = b"soundx: Main.mod: line 4 column 3: bad token\n";
    let tilde = b"soundx: Main.mod: line 4 column 1: bad token\n";
    let hold = [
        refuses(alloc, b"1 +  + 2", inside),
        refuses(alloc, b"1 + ", end),
        refuses(alloc, b"1 ?", sign),
        refuses(alloc, b"~n", tilde),
    ];
    assert_same(&rt, &hold, &[true; 4]);
}

#[test]
fn lines_and_columns(rt: HostRuntime) {
    let alloc = rt.alloc();
    let empty = b"soundx: Main.mod: line 4 column 1: no reading\n";
    let first = b"soundx: Main.mod: line 6 column 1: bad token\n";
    let third = b"soundx: Main.mod: line 6 column 3: bad token\n";
    let end = b"soundx: Main.mod: line 5 column 1: no reading\n";
    let hold = [
        refuses(alloc, b"", empty),
        refuses(alloc, b"1\n\n?", first),
        refuses(alloc, b"1\n\n+ ?", third),
        refuses(alloc, b"1+\n", end),
    ];
    assert_same(&rt, &hold, &[true; 4]);
}

#[test]
fn bodies_and_prints_with_two_readings(rt: HostRuntime) {
    let alloc = rt.alloc();
    let header = b"module Main\nlanguage Amb\n---\n";
    let written = b"soundx: Main.mod: two readings: \
        plus(num(1),plus(num(2),num(3))) and plus(plus(num(1),num(2)),num(3))\n";
    let printed = b"soundx: Main.mod: printed text has two readings: \
        plus(num(1),plus(num(2),num(3))) and plus(plus(num(1),num(2)),num(3))\n";
    let hold = [
        is_refused(alloc, header, b"1 + 2 + 3", written),
        is_refused(alloc, header, b"( 1 + 2 ) + 3", printed),
    ];
    assert_same(&rt, &hold, &[true; 2]);
}

/// The sum of a number with so many digits and 1.
fn long_body(alloc: Global, digits: usize) -> Option<Vec<u8>> {
    let mut body = Vec::new(alloc);
    body.resize(digits, b'1').ok()?;
    body.extend_from_slice(b"+1\n").ok()?;
    Some(body)
}

/// Whether the base program of that is longer than a file may be, by this line.
fn is_too_long(alloc: Global, digits: usize, line: &[u8]) -> bool {
    match long_body(alloc, digits) {
        Some(body) => refuses(alloc, &body, line),
        None => false,
    }
}

/// How many bytes the base program of the body has, where it has one.
fn base_length(alloc: Global, body: &[u8]) -> Option<usize> {
    let came = come_of(alloc, OF_SUMS, body);
    let answer = match &came {
        Ok(work) => match work.files.first() {
            Some(file) => Some(file.bytes.len()),
            None => None,
        },
        Err(_) => None,
    };
    drop(came);
    answer
}

/// Whether the base program of the body with so many digits has so many bytes.
fn has_length(alloc: Global, digits: usize, length: usize) -> bool {
    match long_body(alloc, digits) {
        Some(body) => base_length(alloc, &body) == Some(length),
        None => false,
    }
}

#[test]
fn files_that_are_too_long(rt: HostRuntime) {
    let alloc = rt.alloc();
    let over = b"soundx: Main.mod: printed text has 262145 bytes, over 262144\n";
    let hold = [
        has_length(alloc, 262_109, 262_144),
        is_too_long(alloc, 262_110, over),
    ];
    assert_same(&rt, &hold, &[true; 2]);
}
