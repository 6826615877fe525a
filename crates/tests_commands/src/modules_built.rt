//! Runs of `build` on modules that are built.

use crate::asserts::assert_same;
use crate::interface_samples::{ARROWS_INTERFACE, LAM_INTERFACE};
use crate::samples::{LAM, LAST, LEFT};
use std::alloc::Global;
use sx_outside::{MemShelf, MemSink};
use tests_runs::files::{append, holds, holds_module};
use tests_runs::run::ends;

#[test]
fn modules_that_are_built(rt: HostRuntime) {
    let alloc = rt.alloc();
    let body = b"\\ x : Int . \\ x : Str . x";
    let list = b"sxder 1\nT-Lam\nT-Lam\nT-Var\nL-Here\n";
    let written = b"( ( \\x:Int.itoa x ) ) 1 // a comment";
    let longer = b"sxder 1\nT-App\nT-Lam\nT-Itoa\nT-Var\nL-Here\nT-Num\n";
    let printed = b"( \\ x : Int . itoa x ) 1";
    let hold = [
        LAM.builds(alloc, body, list, body, b"built Main: 4 nodes\n"),
        LAM.builds(alloc, written, longer, printed, b"built Main: 6 nodes\n"),
    ];
    assert_same(&rt, &hold, &[true; 2]);
}

/// Whether a module with this body is built with this line and these texts.
fn has_texts(alloc: Global, body: &[u8], list: &[u8], interface: &[u8], told: &[u8]) -> bool {
    let mut shelf = MemShelf::new(alloc);
    let mut out = MemSink::new(alloc);
    let is = LAM.put(alloc, body, &mut shelf)
        && ends(alloc, "build Main", &mut shelf, &mut out, 0, told)
        && holds_module(alloc, LAM.header, body, &shelf)
        && holds(alloc, "Main.der", list, &shelf)
        && holds(alloc, "Main.int", interface, &shelf);
    drop(out);
    drop(shelf);
    is
}

#[test]
fn the_files_of_a_module(rt: HostRuntime) {
    let body = b"( \\ x : Int . x ) 1";
    let list = b"sxder 1\nT-App\nT-Lam\nT-Var\nL-Here\nT-Num\n";
    assert!(rt;
        has_texts(
            rt.alloc(),
            body,
            list,
            LAM_INTERFACE,
            b"built Main: 5 nodes\n"
        )
    );
}

#[test]
fn a_signature_of_arrows(rt: HostRuntime) {
    let body = b"\\ x : Int . \\ x : Str . x";
    let list = b"sxder 1\nT-Lam\nT-Lam\nT-Var\nL-Here\n";
    assert!(rt;
        has_texts(
            rt.alloc(),
            body,
            list,
            ARROWS_INTERFACE,
            b"built Main: 4 nodes\n"
        )
    );
}

#[test]
fn sums_that_group_to_the_left(rt: HostRuntime) {
    let alloc = rt.alloc();
    let list = b"sxder 1\nT-Plus\nT-Plus\nT-Num\nT-Num\nT-Num\n";
    let told = b"built Main: 5 nodes\n";
    let hold = [
        LEFT.builds(alloc, b"( 1 + 2 ) + 3", list, b"1 + 2 + 3", told),
        LEFT.builds(alloc, b"1 + 2 + 3", list, b"1 + 2 + 3", told),
    ];
    assert_same(&rt, &hold, &[true; 2]);
}

#[test]
fn an_endless_rule_that_comes_last(rt: HostRuntime) {
    let told = b"built Main: 1 nodes\n";
    assert!(rt; LAST.builds(rt.alloc(), b"1", b"sxder 1\nT-Num\n", b"1", told));
}

/// Appends the text so many times, and answers whether memory was there for it.
fn put_times(times: usize, part: &[u8], into: &mut Vec<u8>) -> bool {
    for _ in 0..times {
        if !append(part, into) {
            return false;
        }
    }
    true
}

/// Appends a number in so many bracket pairs, and answers whether memory was there for it.
pub fn put_bracketed(pairs: usize, into: &mut Vec<u8>) -> bool {
    put_times(pairs, b"( ", into) && append(b"1", into) && put_times(pairs, b" )", into)
}

#[test]
fn a_body_as_deep_as_may_be(rt: HostRuntime) {
    let alloc = rt.alloc();
    let mut body = Vec::new(alloc);
    let told = b"built Main: 1 nodes\n";
    let is = put_bracketed(998, &mut body)
        && LAM.builds(alloc, body.as_slice(), b"sxder 1\nT-Num\n", b"1", told);
    drop(body);
    assert!(rt; is);
}
