//! The four kinds of auditors, each through its box.

use crate::asserts::assert_same;
use std::alloc::Global;
use sx_audit::{Auditor, SetError, makers};
use sx_term::{NoMemory, Text};

/// The auditor in a box; None where memory is lacking.
pub(crate) fn boxed<A: Auditor>(alloc: Global, made: Result<A, NoMemory>) -> Option<Box<A>> {
    match made {
        Ok(auditor) => Box::new(alloc, auditor).ok(),
        Err(_) => None,
    }
}

/// Whether the auditor takes the setting, or refuses it, as is wanted.
pub(crate) fn takes(
    alloc: Global,
    auditor: &mut Box<dyn Auditor>,
    setting: &str,
    wanted: bool,
) -> bool {
    match Text::of_str(alloc, setting) {
        Ok(setting) => {
            let set = auditor.set(&setting);
            drop(setting);
            match set {
                Ok(()) => wanted,
                Err(SetError::Bad) => !wanted,
                Err(SetError::Memory) => false,
            }
        }
        Err(_) => false,
    }
}

/// Whether the auditor admits a node, or objects to it, as is wanted.
fn admits(
    alloc: Global,
    auditor: &mut Box<dyn Auditor>,
    rule: &str,
    depth: u32,
    wanted: bool,
) -> bool {
    match Text::of_str(alloc, rule) {
        Ok(rule) => {
            let admitted = auditor.see(&rule, depth);
            drop(rule);
            admitted == wanted
        }
        Err(_) => false,
    }
}

/// Whether this is the auditor's text.
pub(crate) fn says(alloc: Global, auditor: &Box<dyn Auditor>, wanted: &[u8]) -> bool {
    let mut text = Vec::new(alloc);
    let is = match auditor.text(alloc, &mut text) {
        Ok(()) => text.as_slice() == wanted,
        Err(_) => false,
    };
    drop(text);
    is
}

/// What holds of `deny`.
fn denied(alloc: Global) -> [bool; 8] {
    match boxed(alloc, makers::deny(alloc)) {
        Some(made) => {
            let mut it: Box<dyn Auditor> = made;
            let hold = [
                says(alloc, &it, b"deny"),
                admits(alloc, &mut it, "T-App", 1, true),
                takes(alloc, &mut it, "", false),
                takes(alloc, &mut it, "T-App,", false),
                takes(alloc, &mut it, "T-App,T-Num", true),
                admits(alloc, &mut it, "T-Ap", 1, true),
                admits(alloc, &mut it, "T-Num", 2, false),
                says(alloc, &it, b"deny T-App T-Num"),
            ];
            drop(it);
            hold
        }
        None => [false; 8],
    }
}

#[test]
fn deny_objects_to_its_rules(rt: HostRuntime) {
    let alloc = rt.alloc();
    assert_same(&rt, &denied(alloc), &[true; 8]);
}

/// What holds of `depth`.
fn deep(alloc: Global) -> [bool; 8] {
    match boxed(alloc, makers::depth(alloc)) {
        Some(made) => {
            let mut it: Box<dyn Auditor> = made;
            let hold = [
                says(alloc, &it, b"depth 0 of 3000"),
                takes(alloc, &mut it, "0", false),
                takes(alloc, &mut it, "3001", false),
                takes(alloc, &mut it, "03", false),
                takes(alloc, &mut it, "3", true),
                admits(alloc, &mut it, "T-Lam", 3, true),
                admits(alloc, &mut it, "T-Lam", 4, false),
                says(alloc, &it, b"depth 4 of 3"),
            ];
            drop(it);
            hold
        }
        None => [false; 8],
    }
}

#[test]
fn depth_objects_to_deep_nodes(rt: HostRuntime) {
    let alloc = rt.alloc();
    assert_same(&rt, &deep(alloc), &[true; 8]);
}

/// What holds of `nodes`.
fn many(alloc: Global) -> [bool; 7] {
    match boxed(alloc, makers::nodes(alloc)) {
        Some(made) => {
            let mut it: Box<dyn Auditor> = made;
            let hold = [
                says(alloc, &it, b"nodes 0 of 1000000"),
                takes(alloc, &mut it, "1000001", false),
                takes(alloc, &mut it, "2", true),
                admits(alloc, &mut it, "T-Lam", 1, true),
                admits(alloc, &mut it, "T-Lam", 2, true),
                admits(alloc, &mut it, "T-Var", 3, false),
                says(alloc, &it, b"nodes 3 of 2"),
            ];
            drop(it);
            hold
        }
        None => [false; 7],
    }
}

#[test]
fn nodes_objects_to_many(rt: HostRuntime) {
    let alloc = rt.alloc();
    assert_same(&rt, &many(alloc), &[true; 7]);
}

/// What holds of `tally`.
fn tallied(alloc: Global) -> [bool; 8] {
    match boxed(alloc, makers::tally(alloc)) {
        Some(made) => {
            let mut it: Box<dyn Auditor> = made;
            let hold = [
                says(alloc, &it, b"tally"),
                takes(alloc, &mut it, "T-App,T-App", false),
                takes(alloc, &mut it, "T-App,T-Lam", true),
                admits(alloc, &mut it, "T-App", 1, true),
                admits(alloc, &mut it, "T-Var", 2, true),
                says(alloc, &it, b"tally T-App 1 T-Lam 0"),
                takes(alloc, &mut it, "T-Lam", true),
                says(alloc, &it, b"tally T-Lam 0"),
            ];
            drop(it);
            hold
        }
        None => [false; 8],
    }
}

#[test]
fn tally_counts_its_rules(rt: HostRuntime) {
    let alloc = rt.alloc();
    assert_same(&rt, &tallied(alloc), &[true; 8]);
}
