//! Language files without an outline, one for each reason.

use crate::asserts::assert_same;
use crate::reading::joined;
use std::alloc::Global;
use std::test::*;
use sx_lines::Kind;
use sx_outline::{Outline, OutlineError, read_outline};
use sx_term::Text;

/// The outline of a file of the language `Lam`.
fn read(alloc: Global, bytes: &[u8]) -> Result<Outline, OutlineError> {
    if bytes.len() > 10_000 {
        return Err(OutlineError::Memory);
    }
    match Text::make(alloc, b"Lam") {
        Ok(name) => read_outline(alloc, &name, bytes),
        Err(_) => Err(OutlineError::Memory),
    }
}

/// The bad line of the file, and what is bad about it, where the file is refused for one.
fn bad_line(alloc: Global, bytes: &[u8]) -> Option<(u32, Kind)> {
    let read = read(alloc, bytes);
    let answer = match &read {
        Err(OutlineError::Notation { line, kind }) => Some((*line, *kind)),
        _ => None,
    };
    drop(read);
    answer
}

/// Whether the file is refused at this line for a bad line of this kind.
fn is_bad(rt: &HostRuntime, bytes: &[u8], at: u32, what: Kind) -> bool {
    match bad_line(rt.alloc(), bytes) {
        Some((line, kind)) => line == at && kind == what,
        None => false,
    }
}

#[test]
fn first_lines(rt: HostRuntime) {
    let hold = [
        is_bad(&rt, b"", 1, Kind::Head),
        is_bad(&rt, b"// Lam\n\nlanguage Loop\n", 3, Kind::Head),
        is_bad(&rt, b"sort Exp typed\nlanguage Lam\n", 1, Kind::Head),
        is_bad(&rt, b"language Lam\nlanguage Lam\n", 2, Kind::Order),
    ];
    assert_same(&rt, &hold, &[true; 4]);
}

#[test]
fn declarations(rt: HostRuntime) {
    let hold = [
        is_bad(&rt, b"language Lam\nsorts Exp typed\n", 2, Kind::Directive),
        is_bad(&rt, b"language Lam\nsort Exp\n", 2, Kind::Shape),
        is_bad(&rt, b"language Lam\nsort num plain\n", 2, Kind::Shape),
        is_bad(&rt, b"language Lam\nvar e : Exp\n", 2, Kind::Shape),
        is_bad(
            &rt,
            b"language Lam\nvar e : id\nvar e : id\n",
            3,
            Kind::Shape,
        ),
        is_bad(&rt, b"language Lam\n---\n", 2, Kind::Order),
        is_bad(&rt, b"language Lam\nmain f a b\n", 2, Kind::Main),
        is_bad(&rt, b"language Lam\nsort Exp typed", 3, Kind::Main),
    ];
    assert_same(&rt, &hold, &[true; 8]);
}

#[test]
fn sorts_with_lexical_names(rt: HostRuntime) {
    let hold = [
        is_bad(&rt, b"language Lam\nsort id plain\n", 2, Kind::Shape),
        is_bad(
            &rt,
            b"language Lam\nform f : in:id@5\nsort id typed\n",
            3,
            Kind::Shape,
        ),
    ];
    assert_same(&rt, &hold, &[true; 2]);
}

/// A file whose signatures have a sort that the file does not declare, since its last line spells
/// no row.
const LEXICAL: &[u8] = b"language Lam
sort Env plain
sort Exp typed
prod none Env 0 :
prod more Env 0 : Env id id@5
form f : in:Env sub:Exp out:id@5
main f none more
sort id plain
";

#[test]
fn a_lexical_name_for_signatures(rt: HostRuntime) {
    assert!(rt; is_bad(&rt, LEXICAL, 7, Kind::Main));
}

/// A file up to its rules.
const FRONT: &[u8] = b"language Lam
sort Env plain
sort Ty plain
sort Exp typed
prod none Env 0 :
prod more Env 0 : Env id Ty
form f : in:Env sub:Exp out:Ty
main f none more
";

/// Whether the file that goes on with these lines is refused at this line for a bad line of this
/// kind.
fn is_bad_after(rt: &HostRuntime, lines: &[u8], at: u32, what: Kind) -> bool {
    match joined(rt.alloc(), FRONT, lines) {
        Ok(bytes) => is_bad(rt, &bytes, at, what),
        Err(_) => false,
    }
}

#[test]
fn lines_out_of_order(rt: HostRuntime) {
    let hold = [
        is_bad_after(&rt, b"main f none more\n", 9, Kind::Order),
        is_bad_after(&rt, b"end\n", 9, Kind::Order),
        is_bad_after(&rt, b"rule R\n---\na\nend\nvar e : Exp\n", 13, Kind::Order),
        is_bad_after(&rt, b"rule R\n---\na\nrule S\n", 12, Kind::Order),
        is_bad_after(&rt, b"rule R\n---\na\nb\n", 12, Kind::Directive),
    ];
    assert_same(&rt, &hold, &[true; 5]);
}

#[test]
fn rules_without_an_end(rt: HostRuntime) {
    let hold = [
        is_bad_after(&rt, b"\nrule R\n", 10, Kind::Unfinished),
        is_bad_after(&rt, b"rule R\na\n---\n", 9, Kind::Unfinished),
        is_bad_after(&rt, b"rule R\n---\na\n\n", 9, Kind::Unfinished),
    ];
    assert_same(&rt, &hold, &[true; 3]);
}

#[test]
fn bytes_that_are_not_utf8(rt: HostRuntime) {
    let read = read(rt.alloc(), &[b'a', b'\n', 255]);
    let place = match &read {
        Err(OutlineError::NotUtf8(place)) => Some(*place),
        _ => None,
    };
    drop(read);
    assert_same(&rt, &place, &Some(2));
}
