//! The one line that names a refusal.

ghost use Rattle.std.specs.Prelude.{◌≡◌, ◌++◌, OnOk, OnErr};
ghost use Rattle.sx_lines.specs.Reading.{BeginsWith};
ghost use Rattle.sx_words.specs.Lines.{line_text};

use crate::parts::put;
use std::alloc::Global;
use sx_term::{NoMemory, Text};

/// Appends the line, or a front of it where memory is lacking.
fn put_line(file: &Text, text: &[u8], into: &mut Vec<u8>) -> Result<(), NoMemory>
    ensures ok { OnOk result (into.new.items ≡ into.old.items ++ line_text file.now text.now) }
    ensures err { OnErr result (BeginsWith into.new.items into.old.items) }
{
    put(&[b"soundx: ", file.bytes(), b": ", text, b"\n"], into)
}

/// Appends the line of these bytes about the file. After out of memory `into` is as before.
pub(crate) fn append_line(file: &Text, text: &[u8], into: &mut Vec<u8>) -> Result<(), NoMemory>
    ensures ok { OnOk result (into.new.items ≡ into.old.items ++ line_text file.now text.now) }
    ensures err { OnErr result (into.new.items ≡ into.old.items) }
{
    let before = into.len();
    match put_line(file, text, into) {
        Ok(()) => Ok(()),
        Err(e) => {
            into.truncate(before);
            Err(e)
        }
    }
}

/// Appends `soundx: `, the file, `: `, the text and a line feed. After out of memory `into` is as
/// before.
pub fn write_line(
    _alloc: Global,
    file: &Text,
    text: &Text,
    into: &mut Vec<u8>,
) -> Result<(), NoMemory>
    ensures ok { OnOk result (into.new.items ≡ into.old.items ++ line_text file.now text.now) }
    ensures err { OnErr result (into.new.items ≡ into.old.items) }
{
    append_line(file, text.bytes(), into)
}
