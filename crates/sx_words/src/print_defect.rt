//! Printed texts that cannot be written.

ghost use Rattle.std.specs.Prelude.{◌≡◌, ◌++◌, OnOk};
ghost use Rattle.sx_words.specs.RefusalText.{part_text, print_defect_text};

use crate::parts::{put, put_number, put_words};
use std::alloc::Global;
use sx_term::{NoMemory, Text};

/// Which printed text it is.
#[derive(Clone, Copy)]
pub enum PrintedPart {
    /// The body of a module.
    Body,
    /// The signature of its interface.
    Signature,
    /// The stated signature of its interface.
    Stated,
}

/// Why a printed text cannot be written.
#[derive(Drop)]
pub enum PrintDefect {
    /// The bytes of the file.
    Bytes(u64),
    /// The tokens of the print.
    Tokens(u64),
    /// Reading the print needs too many items.
    Items,
    /// The depth of a reading of the print.
    Depth(u64),
    /// Two readings of the print.
    Ambiguous { one: Text, other: Text },
}

/// Appends the name of the part.
pub(crate) fn put_part(part: PrintedPart, into: &mut Vec<u8>) -> Result<(), NoMemory>
    ensures { OnOk result (into.new.items ≡ into.old.items ++ part_text part) }
{
    match part {
        PrintedPart::Body => put_words(b"printed text ", into),
        PrintedPart::Signature => put_words(b"printed signature ", into),
        PrintedPart::Stated => put_words(b"printed stated signature ", into),
    }
}

/// Appends the defect's text, which follows the name of the part.
pub(crate) fn put_print(
    alloc: Global,
    defect: &PrintDefect,
    into: &mut Vec<u8>,
) -> Result<(), NoMemory>
    ensures { OnOk result (into.new.items ≡ into.old.items ++ print_defect_text defect.now) }
{
    match defect {
        PrintDefect::Bytes(n) => put_number(alloc, b"has ", *n, b" bytes, over 262144", into),
        PrintDefect::Tokens(n) => put_number(alloc, b"has ", *n, b" tokens, over 10000", into),
        PrintDefect::Items => put_words(b"needs more than 2000000 items", into),
        PrintDefect::Depth(n) => put_number(alloc, b"has depth ", *n, b", over 1000", into),
        PrintDefect::Ambiguous { one, other } => put(
            &[b"has two readings: ", one.bytes(), b" and ", other.bytes()],
            into,
        ),
    }
}
