//! Runs with an auditor of the caller's own.

use crate::asserts::assert_same;
use crate::modules_imported::{A, B, MAIN};
use std::alloc::Global;
use sx_audit::{Auditor, makers};
use sx_outside::{MemShelf, MemSink};
use tests_given::Stop;
use tests_given::languages::LAM;
use tests_runs::files::{lack, put_files};
use tests_runs::run::code_with;

/// The exit code of the run of the command line over three modules, with `tally` and then the
/// auditor of our own handed in.
fn code_of(alloc: Global, line: &str, shelf: &mut MemShelf, out: &mut MemSink) -> Option<u8> {
    let own: Box<dyn Auditor> = Box::new(alloc, Stop::new(alloc).ok()?).ok()?;
    let tally: Box<dyn Auditor> = Box::new(alloc, makers::tally(alloc).ok()?).ok()?;
    let mut auditors = Vec::new(alloc);
    auditors.push(tally).ok()?;
    auditors.push(own).ok()?;
    if put_files(alloc, &[&LAM, &B, &A, &MAIN], shelf) {
        code_with(alloc, line, auditors, shelf, out)
    } else {
        drop(auditors);
        None
    }
}

/// Whether the run ends with this exit code, and the sink has got this; and whether none of these
/// files was written.
fn ends(alloc: Global, line: &str, code: u8, told: &[u8], absent: &[&str]) -> bool {
    let mut shelf = MemShelf::new(alloc);
    let mut out = MemSink::new(alloc);
    let is = code_of(alloc, line, &mut shelf, &mut out) == Some(code)
        && out.written() == told
        && lack(alloc, absent, &shelf);
    drop(out);
    drop(shelf);
    is
}

#[test]
fn it_is_shown_what_the_command_derives(rt: HostRuntime) {
    let alloc = rt.alloc();
    let hold = [
        ends(
            alloc,
            "build --audit=stop:x --audit=tally:T-Num B",
            0,
            b"built B: 1 nodes\ntally T-Num 1\nstop\n",
            &["A.base"],
        ),
        ends(
            alloc,
            "build --audit=stop:x Main",
            1,
            b"soundx: A.mod: stop objects to node 2, T-Var\n",
            &["B.base", "B.der", "B.int", "A.base", "A.der", "A.int"],
        ),
        ends(
            alloc,
            "build Main",
            0,
            b"built B: 1 nodes\nbuilt A: 4 nodes\nbuilt Main: 6 nodes\n",
            &[],
        ),
        ends(
            alloc,
            "build --audit=deny:T-Lam Main",
            2,
            b"soundx: words: word 2\n",
            &["B.base"],
        ),
    ];
    assert_same(&rt, &hold, &[true; 4]);
}
