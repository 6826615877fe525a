//! Defects of the words and of whole files.

ghost use Rattle.std.specs.Prelude.{◌≡◌, ◌++◌, OnOk};
ghost use Rattle.sx_words.specs.RefusalText.{file_text};

use crate::parts::{put_named, put_number, put_words};
use std::alloc::Global;
use sx_term::{NoMemory, Text};

/// What is wrong with the words or with a file as a whole.
#[derive(Drop)]
pub enum FileDefect {
    /// Words that are no command: the first word that does not fit, from 1.
    Word(u64),
    /// There is no such file.
    Absent,
    /// The file has more bytes than it may have.
    TooLong,
    /// The file could not be read.
    ReadFault,
    /// The file could not be written.
    WriteFault,
    /// How many bytes stand before the first that are not UTF-8.
    NotUtf8(u64),
    /// The kind of a bad line in lower case. At `Position::Line`.
    Notation(Text),
    /// A bad line of a header or an interface. At `Position::Line`.
    Header,
    /// Another version than 1.
    Version(u64),
    /// A bad line of a derivation list. At `Position::Line`.
    BadList,
}

/// Appends the defect's text.
pub(crate) fn put_file(
    alloc: Global,
    defect: &FileDefect,
    into: &mut Vec<u8>,
) -> Result<(), NoMemory>
    ensures { OnOk result (into.new.items ≡ into.old.items ++ file_text defect.now) }
{
    match defect {
        FileDefect::Word(n) => put_number(alloc, b"word ", *n, b"", into),
        FileDefect::Absent => put_words(b"absent", into),
        FileDefect::TooLong => put_words(b"too long", into),
        FileDefect::ReadFault => put_words(b"read fault", into),
        FileDefect::WriteFault => put_words(b"write fault", into),
        FileDefect::NotUtf8(n) => put_number(alloc, b"not UTF-8 at byte ", *n, b"", into),
        FileDefect::Notation(text) => put_named(b"", text, b"", into),
        FileDefect::Header => put_words(b"bad header", into),
        FileDefect::Version(n) => put_number(alloc, b"version ", *n, b"", into),
        FileDefect::BadList => put_words(b"bad entry", into),
    }
}
