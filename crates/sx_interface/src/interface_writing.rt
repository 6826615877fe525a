//! Writing interfaces.

ghost use Rattle.std.specs.Prelude.{◌≡◌, [], ◌∷◌, ◌++◌, codes, OnOk, OnErr};
ghost use Rattle.sx_lines.specs.Reading.{BeginsWith, written};
ghost use Rattle.hex.specs.Hex.{encode_lower};
ghost use Rattle.sx_interface.specs.Interfaces.{mark_text, mark_lines, interface_lines};
ghost use Rattle.sx_interface.specs.InterfaceView.{marks_view, interface_view};

use crate::interfaces::{ImportMark, Interface};
use crate::marks::{Digest, write_digest};
use std::alloc::Global;
use sx_term::NoMemory;

/// Appends a line: a front and a text.
fn put_row(front: &[u8], text: &[u8], into: &mut Vec<u8>) -> Result<(), NoMemory>
    ensures ok { OnOk result (into.new.items ≡ into.old.items ++
        ((front.now ++ text.now) ++ 10 ∷ [])) }
    ensures err { OnErr result (BeginsWith into.new.items into.old.items) }
{
    into.extend_from_slice(front)?;
    into.extend_from_slice(text)?;
    into.push(b'\n')?;
    Ok(())
}

/// Appends a line: a front and a digest.
fn put_digest(
    alloc: Global,
    front: &[u8],
    digest: &Digest,
    into: &mut Vec<u8>,
) -> Result<(), NoMemory>
    ensures ok { OnOk result (into.new.items ≡ into.old.items ++
        ((front.now ++ encode_lower digest.now.bytes) ++ 10 ∷ [])) }
    ensures err { OnErr result (BeginsWith into.new.items into.old.items) }
{
    into.extend_from_slice(front)?;
    write_digest(alloc, digest, into)?;
    into.push(b'\n')?;
    Ok(())
}

/// Appends a line: a front, a name and a digest.
fn put_mark(
    alloc: Global,
    front: &[u8],
    name: &[u8],
    digest: &Digest,
    into: &mut Vec<u8>,
) -> Result<(), NoMemory>
    ensures ok { OnOk result (into.new.items
        ≡ into.old.items ++ ((front.now ++ (name.now ++ 32 ∷ encode_lower digest.now.bytes))
        ++ 10 ∷ [])) }
    ensures err { OnErr result (BeginsWith into.new.items into.old.items) }
{
    into.extend_from_slice(front)?;
    into.extend_from_slice(name)?;
    into.push(b' ')?;
    write_digest(alloc, digest, into)?;
    into.push(b'\n')?;
    Ok(())
}

/// Appends a line for each mark: a front, a name and a digest.
fn put_marks(
    alloc: Global,
    front: &[u8],
    marks: &[ImportMark],
    into: &mut Vec<u8>,
) -> Result<(), NoMemory>
    ensures ok { OnOk result (into.new.items ≡ into.old.items ++ written
        (mark_lines front.now (marks_view marks.now))) }
    ensures err { OnErr result (BeginsWith into.new.items into.old.items) }
{
    for mark in marks {
        put_mark(alloc, front, mark.name.bytes(), &mark.digest, into)?;
    }
    Ok(())
}

/// Appends the lines before the uses.
fn put_front(alloc: Global, it: &Interface, into: &mut Vec<u8>) -> Result<(), NoMemory>
    ensures ok { OnOk result (into.new.items ≡ into.old.items ++ written (codes "sxint 2"
        ∷ (codes "module " ++ (interface_view it.now).name) ∷
        (codes "language " ++ mark_text (interface_view it.now).language) ∷ [])) }
    ensures err { OnErr result (BeginsWith into.new.items into.old.items) }
{
    put_row(b"sxint 2", b"", into)?;
    put_row(b"module ", it.module.bytes(), into)?;
    put_mark(
        alloc,
        b"language ",
        it.language.bytes(),
        &it.language_digest,
        into,
    )
}

/// Appends the lines of the uses, the base file and the imports.
fn put_digests(alloc: Global, it: &Interface, into: &mut Vec<u8>) -> Result<(), NoMemory>
    ensures ok { OnOk result (into.new.items ≡ into.old.items ++ written
        (mark_lines (codes "use ") (interface_view it.now).uses
        ++ (codes "base " ++ encode_lower (interface_view it.now).base) ∷ mark_lines
        (codes "import ") (interface_view it.now).imports)) }
    ensures err { OnErr result (BeginsWith into.new.items into.old.items) }
{
    put_marks(alloc, b"use ", it.uses.as_slice(), into)?;
    put_digest(alloc, b"base ", &it.base_digest, into)?;
    put_marks(alloc, b"import ", it.imports.as_slice(), into)
}

/// Appends the lines after the imports.
fn put_signatures(it: &Interface, into: &mut Vec<u8>) -> Result<(), NoMemory>
    ensures ok { OnOk result (into.new.items ≡ into.old.items ++ written (codes "---"
        ∷ (interface_view it.now).signature ∷ (interface_view it.now).stated ∷ [])) }
    ensures err { OnErr result (BeginsWith into.new.items into.old.items) }
{
    put_row(b"---", b"", into)?;
    put_row(b"", it.signature.bytes(), into)?;
    put_row(b"", it.stated.bytes(), into)
}

/// Appends the lines of an interface.
fn put_lines(alloc: Global, it: &Interface, into: &mut Vec<u8>) -> Result<(), NoMemory>
    ensures ok { OnOk result (into.new.items ≡ into.old.items ++ written
        (interface_lines (interface_view it.now))) }
    ensures err { OnErr result (BeginsWith into.new.items into.old.items) }
{
    put_front(alloc, it, into)?;
    put_digests(alloc, it, into)?;
    put_signatures(it, into)
}

/// Appends the text of the interface in version 2. After out of memory `into` is as before.
pub fn write_interface(alloc: Global, it: &Interface, into: &mut Vec<u8>) -> Result<(), NoMemory>
    ensures ok { OnOk result (into.new.items ≡ into.old.items ++ written
        (interface_lines (interface_view it.now))) }
    ensures err { OnErr result (into.new.items ≡ into.old.items) }
{
    let before = into.len();
    match put_lines(alloc, it, into) {
        Ok(()) => Ok(()),
        Err(e) => {
            into.truncate(before);
            Err(e)
        }
    }
}
