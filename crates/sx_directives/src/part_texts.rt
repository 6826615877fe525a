//! The texts that parts of a row are: names, stems, variables and quoted literals.

ghost use Rattle.std.specs.Prelude.{◌≡◌, MatchResult};
ghost use Rattle.std.specs.List.{list_all};
ghost use Rattle.std.specs.Char as char;
ghost use Rattle.sx_directives.specs.Spelling as spec;
ghost use Rattle.sx_directives.specs.Spelling.{IsModuleNamed, IsSpelledName, IsStemOf, IsQuoted};
ghost use Rattle.sx_directives.specs.Spelling.{IsTextOf, IsVariable, NoneIs};

use crate::row_error::RowError;
use std::alloc::Global;
use sx_lines::is_name;
use sx_term::{Text, TextError};

/// Why a row with such bytes is refused.
fn text_error(e: TextError) -> RowError
    ensures { result ≡ spec.text_error e }
{
    match e {
        TextError::Memory => RowError::Memory,
        TextError::NotUtf8(_) => RowError::Shape,
    }
}

/// The text with these bytes of a row. Bytes that are not UTF-8 have no shape.
pub(crate) fn row_text(alloc: Global, bytes: &[u8]) -> Result<Text, RowError>
    ensures { MatchResult result (IsTextOf bytes.now) (NoneIs (IsTextOf bytes.now)) }
{
    match Text::make(alloc, bytes) {
        Ok(text) => Ok(text),
        Err(e) => Err(text_error(e)),
    }
}

/// The name that a part is.
pub(crate) fn name_of(alloc: Global, part: &[u8]) -> Result<Text, RowError>
    ensures { MatchResult result (IsSpelledName part.now) (NoneIs (IsSpelledName part.now)) }
{
    if !is_name(true, part) {
        return Err(RowError::Shape);
    }
    row_text(alloc, part)
}

/// The name of a module that a part is.
pub(crate) fn module_name_of(alloc: Global, part: &[u8]) -> Result<Text, RowError>
    ensures { MatchResult result (IsModuleNamed part.now) (NoneIs (IsModuleNamed part.now)) }
{
    if !is_name(false, part) {
        return Err(RowError::Shape);
    }
    row_text(alloc, part)
}

/// Whether each byte is an ASCII letter.
fn are_letters(text: &[u8]) -> bool
    ensures { result ≡ list_all char.is_ascii_alphabetic text.now }
{
    text.iter().all(|c| c.is_ascii_alphabetic())
}

/// The stem that a part is: a name of ASCII letters alone.
pub(crate) fn stem_of(alloc: Global, part: &[u8]) -> Result<Text, RowError>
    ensures { MatchResult result (IsStemOf part.now) (NoneIs (IsStemOf part.now)) }
{
    if !are_letters(part) {
        return Err(RowError::Shape);
    }
    name_of(alloc, part)
}

/// Whether each byte is an ASCII digit.
fn are_digits(text: &[u8]) -> bool
    ensures { result ≡ list_all char.is_ascii_digit text.now }
{
    text.iter().all(|c| c.is_ascii_digit())
}

/// The variable that a part is, without its `~`.
pub(crate) fn variable_of(alloc: Global, part: &[u8]) -> Result<Text, RowError>
    ensures { MatchResult result (IsVariable part.now) (NoneIs (IsVariable part.now)) }
{
    if are_digits(part) {
        return Err(RowError::Shape);
    }
    row_text(alloc, part)
}

/// Whether the byte is no quote.
fn is_plain_byte(b: u8) -> bool
    ensures { result ≡ spec.is_plain_byte b }
{
    b != b'"'
}

/// Whether no byte is a quote.
fn are_plain_bytes(text: &[u8]) -> bool
    ensures { result ≡ list_all spec.is_plain_byte text.now }
{
    text.iter().all(|b| is_plain_byte(*b))
}

/// The literal that a part is with its quotes.
pub(crate) fn literal_of(alloc: Global, part: &[u8]) -> Result<Text, RowError>
    ensures { MatchResult result (IsQuoted part.now) (NoneIs (IsQuoted part.now)) }
{
    match part.split_first() {
        Some((first, more)) => match more.split_last() {
            Some((last, inside)) => {
                if *first != b'"' || *last != b'"' || !are_plain_bytes(inside) {
                    return Err(RowError::Shape);
                }
                row_text(alloc, inside)
            }
            None => Err(RowError::Shape),
        },
        None => Err(RowError::Shape),
    }
}
