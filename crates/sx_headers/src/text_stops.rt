//! The stops of texts of modules that are not read.

ghost use Rattle.std.specs.Prelude.{◌≡◌, IfOk, Some};
ghost use Rattle.sx_headers.specs.TextStops as stops;

use std::alloc::Global;
use sx_notation::Unread;
use sx_steps::{Stop, refused, refused_at};
use sx_term::{NoMemory, Text};
use sx_token::TokenError;
use sx_words::{Defect, FileDefect, Position, TextDefect};

/// A defect of the text at a line and a column.
fn at_spot(
    alloc: Global,
    file: &Text,
    line: u64,
    column: u64,
    what: TextDefect,
) -> Result<Stop, NoMemory>
    ensures { IfOk result (λ stop. stop ≡ stops.at_spot file.now line column what) }
{
    refused_at(
        alloc,
        file,
        Position::Spot { line, column },
        Defect::Text(what),
    )
}

/// The refusal of a text that is not cut into tokens.
pub fn uncut_text(
    alloc: Global,
    file: &Text,
    line: u64,
    column: u64,
    error: TokenError,
) -> Result<Stop, NoMemory>
    ensures { IfOk result (λ stop. stops.uncut_text file.now line column error ≡ Some stop) }
{
    match error {
        TokenError::Memory => Err(NoMemory::Memory),
        TokenError::NotUtf8(before) => refused(
            alloc,
            file,
            Defect::File(FileDefect::NotUtf8(u64::from(before))),
        ),
        TokenError::BadToken(_) => at_spot(alloc, file, line, column, TextDefect::BadToken),
        TokenError::TooManyTokens => refused(alloc, file, Defect::Text(TextDefect::TooManyTokens)),
        TokenError::OpenString(_) => at_spot(alloc, file, line, column, TextDefect::OpenString),
    }
}

/// The refusal of a text that has not one reading.
pub fn unread_text(
    alloc: Global,
    file: &Text,
    line: u64,
    column: u64,
    error: Unread,
) -> Result<Stop, NoMemory>
    ensures { IfOk result (λ stop. stop ≡ stops.unread_text file.now line column error) }
{
    let what = match error {
        Unread::TooHard => TextDefect::TooHard,
        Unread::NoReading(_) => return at_spot(alloc, file, line, column, TextDefect::NoReading),
        Unread::TooDeep(depth) => TextDefect::TooDeep(depth),
        Unread::Ambiguous(one, other) => TextDefect::Ambiguous { one, other },
    };
    refused(alloc, file, Defect::Text(what))
}
