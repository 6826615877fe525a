//! Defects of texts and terms.

ghost use Rattle.std.specs.Prelude.{◌≡◌, ◌++◌, OnOk};
ghost use Rattle.sx_words.specs.RefusalText.{text_text};

use crate::parts::{put, put_number, put_words};
use std::alloc::Global;
use sx_term::{NoMemory, Text};

/// What is wrong with a text that is cut into tokens and read.
#[derive(Drop)]
pub enum TextDefect {
    /// No token begins there. At `Position::Spot`.
    BadToken,
    /// A string has no end in its line. At `Position::Spot`.
    OpenString,
    /// No reading goes on there. At `Position::Spot`.
    NoReading,
    /// At `Position::Line` in a language or extension file.
    TooManyTokens,
    /// At `Position::Line` in a language or extension file.
    TooHard,
    /// The depth of a reading or a term. At `Position::Line` of a line that is read, at
    /// `Position::Rule` in accepting a rule, at `Position::Plain` of a plain body.
    TooDeep(u64),
    /// The size of a term. At `Position::Rule` in accepting a rule, at `Position::Plain` of a plain
    /// body.
    TooBig(u64),
    /// Two readings. At `Position::Line` of a line that is read by a grammar.
    Ambiguous { one: Text, other: Text },
}

/// Appends the defect's text.
pub(crate) fn put_text(
    alloc: Global,
    defect: &TextDefect,
    into: &mut Vec<u8>,
) -> Result<(), NoMemory>
    ensures { OnOk result (into.new.items ≡ into.old.items ++ text_text defect.now) }
{
    match defect {
        TextDefect::BadToken => put_words(b"bad token", into),
        TextDefect::OpenString => put_words(b"string without end", into),
        TextDefect::NoReading => put_words(b"no reading", into),
        TextDefect::TooManyTokens => put_words(b"more than 10000 tokens", into),
        TextDefect::TooHard => put_words(b"parsing needs more than 2000000 items", into),
        TextDefect::TooDeep(n) => put_number(alloc, b"depth ", *n, b" is over 1000", into),
        TextDefect::TooBig(n) => put_number(
            alloc,
            b"a term has ",
            *n,
            b" nodes, over 1000000",
            into,
        ),
        TextDefect::Ambiguous { one, other } => put(
            &[b"two readings: ", one.bytes(), b" and ", other.bytes()],
            into,
        ),
    }
}
