//! Core texts: which are read, where others stop, and what is written.

ghost use Rattle.std.specs.Prelude.{◌≤◌};
ghost use Rattle.sx_term.specs.Tree.{depth_of};
ghost use Rattle.sx_term.specs.Term.{tree};
ghost use Rattle.sx_term.specs.Core.{HasCore};

use crate::asserts::assert_same;
use crate::samples::{nested, term};
use std::alloc::Global;
use sx_term::{CoreError, NoMemory, Term, read_core, write_core};

/// What reading the core text from place 0 on answers, in a word, with its numbers: of a term the
/// place after its text, its size and its depth; of a refusal the place or the depth.
fn read_whole(alloc: Global, core: &[u8]) -> (&'static str, [u64; 3]) {
    match read_core(alloc, core, 0) {
        Ok((term, end)) => {
            let numbers = [end as u64, term.size(), u64::from(term.depth())];
            drop(term);
            ("read", numbers)
        }
        Err(CoreError::BadCore(place)) => ("bad core", [place as u64, 0, 0]),
        Err(CoreError::TooDeep(depth)) => ("too deep", [depth, 0, 0]),
        Err(CoreError::Memory) => ("memory", [0; 3]),
    }
}

/// Whether the term is a node with this label and so many kids.
fn is_node(term: &Term, wanted: u32, count: usize) -> bool {
    match term {
        Term::Node { label, kids } => *label == wanted && kids.len() == count,
        _ => false,
    }
}

/// Writes the term behind a byte.
fn write_behind(alloc: Global, term: &Term, out: &mut Vec<u8>) -> Result<(), NoMemory>
    requires depth { depth_of (tree term.now) ≤ 1000 }
    requires has_core { HasCore (tree term.now) }
{
    out.push(b'>')?;
    write_core(alloc, term, out)
}

/// Whether this is written behind a byte that stands there.
fn is_written(alloc: Global, term: &Term, wanted: &[u8]) -> bool
    requires depth { depth_of (tree term.now) ≤ 1000 }
    requires has_core { HasCore (tree term.now) }
{
    let mut out = Vec::new(alloc);
    let is = write_behind(alloc, term, &mut out).is_ok() && out.as_slice() == wanted;
    drop(out);
    is
}

/// Whether the term of the core text is a node `0` with two kids, and whether it is written so.
fn is_pair_written(alloc: Global, core: &str, wanted: &[u8]) -> [bool; 2] {
    match term(alloc, core) {
        Some(term) => {
            let hold = [is_node(&term, 0, 2), is_written(alloc, &term, wanted)];
            drop(term);
            hold
        }
        None => [false; 2],
    }
}

#[test]
fn core_text_is_read_and_written(rt: HostRuntime) {
    let alloc = rt.alloc();
    let core = "(0 i1:x ?3)";
    assert_same(
        &rt,
        &read_whole(alloc, core.as_bytes()),
        &("read", [11, 3, 2]),
    );
    assert_same(
        &rt,
        &is_pair_written(alloc, core, b">(0 i1:x ?3)"),
        &[true; 2],
    );
}

#[test]
fn bad_core_texts(rt: HostRuntime) {
    let alloc = rt.alloc();
    let found = [
        read_whole(alloc, b"(00)"),
        read_whole(alloc, b"(0 i2:x)"),
        read_whole(alloc, "(0 s1:\u{e9})".as_bytes()),
        read_whole(alloc, b"?x"),
    ];
    let wanted = &[
        ("bad core", [2, 0, 0]),
        ("bad core", [8, 0, 0]),
        ("bad core", [6, 0, 0]),
        ("bad core", [1, 0, 0]),
    ];
    assert_same(&rt, &found, wanted);
}

/// The place after the variable whose core text stands at place 1, and its number.
fn variable_behind(alloc: Global, core: &[u8]) -> Option<(usize, u32)> {
    if core.is_empty() {
        return None;
    }
    match read_core(alloc, core, 1) {
        Ok((term, end)) => {
            let number = match &term {
                Term::Var(variable) => Some((end, *variable)),
                _ => None,
            };
            drop(term);
            number
        }
        Err(_) => None,
    }
}

#[test]
fn longest_core_text(rt: HostRuntime) {
    assert!(rt; variable_behind(rt.alloc(), b"x?31 ") == Some((4, 31)));
}

/// What reading so many nodes answers, each in the one before, round the middle and up to the ends.
fn read_nested(alloc: Global, count: u32, middle: &[u8], end: &[u8]) -> (&'static str, [u64; 3]) {
    let core = nested(alloc, b"(0 ", count, middle, end);
    let told = read_whole(alloc, &core);
    drop(core);
    told
}

#[test]
fn deep_core_texts(rt: HostRuntime) {
    let alloc = rt.alloc();
    let found = [
        read_nested(alloc, 87_381, b"", b""),
        read_nested(alloc, 87_381, b"?0", b")"),
    ];
    let wanted = &[("bad core", [262_143, 0, 0]), ("too deep", [87_382, 0, 0])];
    assert_same(&rt, &found, wanted);
}
