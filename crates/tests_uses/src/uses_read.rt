//! Extensions that are read along their `use` lines.

use crate::asserts::assert_same;
use std::alloc::Global;
use sx_outside::MemShelf;
use sx_steps::{StepError, Stop};
use sx_term::{NoMemory, Text};
use sx_uses::{ExtensionFile, read_extension_file, read_uses};

/// Puts the file on the shelf; whether memory was there for that.
pub(crate) fn put(alloc: Global, name: &str, text: &[u8], shelf: &mut MemShelf) -> bool {
    match Text::of_str(alloc, name) {
        Ok(name) => match Vec::from_slice(alloc, text) {
            Ok(bytes) => shelf.put(name, bytes).is_ok(),
            Err(_) => {
                drop(name);
                false
            }
        },
        Err(_) => false,
    }
}

/// The one root `X`.
fn root(alloc: Global) -> Result<Vec<Text>, NoMemory> {
    let mut roots = Vec::new(alloc);
    roots.push(Text::of_str(alloc, "X")?)?;
    Ok(roots)
}

/// What is reached from `X`, whose file is read first.
fn reached(
    alloc: Global,
    name: &Text,
    file: &Text,
    language: &Text,
    shelf: &mut MemShelf,
) -> Result<Vec<ExtensionFile>, StepError> {
    match read_extension_file(alloc, name, shelf) {
        Ok(held) => match root(alloc) {
            Ok(roots) => read_uses(alloc, file, language, Some(held), roots, shelf),
            Err(_) => {
                drop(held);
                Err(StepError::Memory)
            }
        },
        Err(e) => Err(e),
    }
}

/// So, where memory is there for the names.
fn reached_from_x(alloc: Global, shelf: &mut MemShelf) -> Result<Vec<ExtensionFile>, StepError> {
    let name = Text::of_str(alloc, "X")?;
    let file = Text::of_str(alloc, "X.ext")?;
    let language = Text::of_str(alloc, "Lam")?;
    reached(alloc, &name, &file, &language, shelf)
}

/// Whether the stop is told by this line.
fn is_line(alloc: Global, stop: &Stop, told: &[u8]) -> bool {
    match stop.line(alloc) {
        Ok(line) => line.as_slice() == told,
        Err(_) => false,
    }
}

/// Appends the name and a blank; whether memory was there for that.
fn append(name: &[u8], names: &mut Vec<u8>) -> bool {
    names.extend_from_slice(name).is_ok() && names.push(b' ').is_ok()
}

/// Whether the extensions have these names, each followed by a blank, in this order.
fn are_named(alloc: Global, files: &[ExtensionFile], told: &[u8]) -> bool {
    let mut names = Vec::new(alloc);
    for i in 0..files.len() {
        let file = &files[i];
        if !append(file.header.name.bytes(), &mut names) {
            return false;
        }
    }
    names.as_slice() == told
}

/// Whether this is told.
fn is_told(alloc: Global, answer: &Result<Vec<ExtensionFile>, StepError>, told: &[u8]) -> bool {
    match answer {
        Ok(files) => are_named(alloc, files, told),
        Err(StepError::Stopped(stop)) => is_line(alloc, stop, told),
        Err(StepError::Memory) => false,
    }
}

/// Whether it is, where these three files are there.
fn tells(alloc: Global, x: &[u8], y: &[u8], z: &[u8], told: &[u8]) -> bool {
    let mut shelf = MemShelf::new(alloc);
    let there = put(alloc, "X.ext", x, &mut shelf)
        && put(alloc, "Y.ext", y, &mut shelf)
        && put(alloc, "Z.ext", z, &mut shelf);
    let answer = reached_from_x(alloc, &mut shelf);
    drop(shelf);
    let is = there && is_told(alloc, &answer, told);
    drop(answer);
    is
}

#[test]
fn extensions_along_use_lines(rt: HostRuntime) {
    let alloc = rt.alloc();
    let x = b"extension X\nlanguage Lam\nuse Y\nuse Z\nprod q Ty 90 : \"Q\"\n".as_slice();
    let y = b"extension Y\nlanguage Lam\n".as_slice();
    let z = b"extension Z\nlanguage Lam\nuse Y\n".as_slice();
    let none = b"extension Z\nlanguage Lam\nuse Nope\n".as_slice();
    let back = b"extension Z\nlanguage Lam\nuse X\n".as_slice();
    let again = b"extension Z\nlanguage Lam\nuse Z\n".as_slice();
    let bad = b"extension Z\nlanguage Lam\nuse Y Y\n".as_slice();
    let other = b"extension Y\nlanguage Loop\nuse Nope\n".as_slice();
    let turned = b"extension X\nlanguage Lam\nuse Z\nuse Y\n".as_slice();
    let hold = [
        tells(alloc, x, y, z, b"Y Z X "),
        tells(alloc, turned, y, z, b"Y Z X "),
        tells(alloc, turned, y, y, b"soundx: Z.ext: line 1: head\n"),
        tells(alloc, x, y, none, b"soundx: Nope.ext: absent\n"),
        tells(alloc, x, y, back, b"soundx: X.ext: cycle X Z X\n"),
        tells(alloc, x, y, again, b"soundx: X.ext: cycle Z Z\n"),
        tells(alloc, x, y, bad, b"soundx: Z.ext: line 3: shape\n"),
        tells(
            alloc,
            x,
            other,
            bad,
            b"soundx: Y.ext: written for language Loop\n",
        ),
        tells(alloc, turned, other, none, b"soundx: Nope.ext: absent\n"),
        tells(alloc, b"foo\n", y, z, b"soundx: X.ext: line 1: head\n"),
        tells(alloc, x, &[255], z, b"soundx: Y.ext: not UTF-8 at byte 0\n"),
    ];
    assert_same(&rt, &hold, &[true; 11]);
}
