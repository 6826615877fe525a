//! Texts, the names of variables, and the shapes of literals.

ghost use Rattle.std.specs.Prelude.{◌+◌, ◌<◌, ◌≤◌, length};

use crate::asserts::assert_same;
use crate::samples::text;
use std::alloc::Global;
use sx_term::{LiteralShape, Text, TextError, Vars, literal_shape};

/// The number of the name, once it is added.
fn added(alloc: Global, names: &mut Vars, name: &str) -> Option<u32>
    requires { length names.old < 10 }
    ensures { length names.new ≤ length names.old + 1 }
{
    names.add(text(alloc, name).ok()?).ok()
}

/// Whether the name with the number is this one.
fn is_name(names: &Vars, number: u32, wanted: &[u8]) -> bool {
    match names.name(number) {
        Some(name) => name.bytes() == wanted,
        None => false,
    }
}

#[test]
fn names_are_numbered(rt: HostRuntime) {
    let alloc = rt.alloc();
    let mut names = Vars::new(alloc);
    let numbers = [
        added(alloc, &mut names, "x"),
        added(alloc, &mut names, "y"),
        added(alloc, &mut names, "x"),
    ];
    let are_named = [is_name(&names, 1, b"y"), names.name(2).is_none()];
    let many = names.count();
    names.cut(1);
    let left = names.count();
    drop(names);
    assert_same(&rt, &numbers, &[Some(0), Some(1), Some(0)]);
    assert_same(&rt, &are_named, &[true; 2]);
    assert_same(&rt, &[many, left], &[2, 1]);
}

/// How many bytes stand before the first that is not UTF-8.
fn not_utf8(alloc: Global, bytes: &[u8]) -> Option<usize> {
    match Text::make(alloc, bytes) {
        Err(TextError::NotUtf8(place)) => Some(place),
        _ => None,
    }
}

/// Whether a text has the bytes that it is made of.
fn has_bytes(alloc: Global, bytes: &[u8]) -> bool {
    match Text::make(alloc, bytes) {
        Ok(text) => {
            let has = text.bytes() == bytes;
            drop(text);
            has
        }
        Err(_) => false,
    }
}

/// The shape of the text as a literal.
fn shape(alloc: Global, literal: &str) -> Option<LiteralShape> {
    match text(alloc, literal) {
        Ok(text) => {
            let shape = literal_shape(&text);
            drop(text);
            Some(shape)
        }
        Err(_) => None,
    }
}

#[test]
fn texts_and_literals(rt: HostRuntime) {
    let alloc = rt.alloc();
    assert_same(&rt, &not_utf8(alloc, b"a\xff"), &Some(1));
    assert_same(&rt, &has_bytes(alloc, b"let"), &true);
    let found = [
        shape(alloc, "let"),
        shape(alloc, "->"),
        shape(alloc, "a//"),
        shape(alloc, "://"),
    ];
    let wanted = &[
        Some(LiteralShape::Word),
        Some(LiteralShape::Symbol),
        Some(LiteralShape::Bad),
        Some(LiteralShape::Bad),
    ];
    assert_same(&rt, &found, wanted);
}
