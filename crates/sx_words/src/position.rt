//! Where the thing stands that a refusal names.

ghost use Rattle.std.specs.Prelude.{◌≡◌, ◌++◌, OnOk};
ghost use Rattle.sx_words.specs.RefusalText.{place_text};

use crate::parts::{number, put, put_named, put_number};
use std::alloc::Global;
use sx_term::{NoMemory, Text};

/// Where in its file the thing stands that a refusal names: what its text says first. The defects
/// say which of these they take; where they say nothing it is `Nowhere`.
#[derive(Drop)]
pub enum Position {
    /// The text says no place.
    Nowhere,
    /// A line, from 1.
    Line(u32),
    /// A line and a column, from 1.
    Spot { line: u64, column: u64 },
    /// The name of a rule.
    Rule(Text),
    /// The label of a plain body.
    Plain(Text),
    /// The label of a production.
    Production(Text),
}

/// Appends the place.
pub(crate) fn put_place(alloc: Global, place: &Position, into: &mut Vec<u8>) -> Result<(), NoMemory>
    ensures { OnOk result (into.new.items ≡ into.old.items ++ place_text place.now) }
{
    match place {
        Position::Nowhere => put(&[], into),
        Position::Line(line) => put_number(alloc, b"line ", u64::from(*line), b": ", into),
        Position::Spot { line, column } => {
            let line = number(alloc, *line)?;
            let column = number(alloc, *column)?;
            put(
                &[
                    b"line ",
                    line.as_str().as_bytes(),
                    b" column ",
                    column.as_str().as_bytes(),
                    b": ",
                ],
                into,
            )
        }
        Position::Rule(rule) => put_named(b"rule ", rule, b": ", into),
        Position::Plain(label) => put_named(b"plain ", label, b": ", into),
        Position::Production(label) => put_named(b"production ", label, b": ", into),
    }
}
