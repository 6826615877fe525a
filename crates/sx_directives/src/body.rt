//! Bodies behind `to`, which are read by no parts.

ghost use Rattle.std.specs.Prelude.{◌≡◌, ◌↔◌, IsTrue, List, ℕ, ◌++◌, codes, IfOk, MatchOption};
ghost use Rattle.std.specs.Prelude.{MatchResult};
ghost use Rattle.std.specs.List.{repeat};
ghost use Rattle.sx_directives.specs.Rows.{BeginsBlank, IsToBody, IsBodyText, IsToCut};
ghost use Rattle.sx_directives.specs.Spelling.{NoneIs};

use crate::part_texts::row_text;
use crate::parts::{blanks_len, is_blank};
use crate::row_error::RowError;
use crate::symbols::after_front;
use std::alloc::Global;
use sx_term::{NoMemory, Text};

/// Whether a blank stands first.
fn begins_blank(text: &[u8]) -> bool
    ensures { IsTrue result ↔ BeginsBlank text.now }
{
    match text {
        [first, ..] => is_blank(*first),
        [] => false,
    }
}

/// How many bytes stand before the body of a `to` line, and the body. `None` comes exactly where
/// the line is none: where `to` is not its first part, or no byte follows it.
fn split_body<'a>(line: &'a [u8]) -> Option<(usize, &'a [u8])>
    ensures { MatchOption result ((body : List ℕ) → IsToBody line.entry.now body → ⊥)
        (λ x. IsToCut line.entry.now x.0 x.1.now) }
{
    let blanks = blanks_len(line);
    let (_blanks, word) = line.split_at(blanks);
    match after_front(word, b"to") {
        Some(body) => {
            if begins_blank(body) {
                return Some((blanks + 2, body));
            }
            None
        }
        None => None,
    }
}

/// Whether the line is a `to` line with a body.
pub(crate) fn has_body(line: &[u8]) -> bool
    ensures { IsTrue result ↔ ((body : List ℕ) × IsToBody line.now body) }
{
    match split_body(line) {
        Some(_) => true,
        None => false,
    }
}

/// So many spaces, and these bytes after them.
fn behind_spaces(alloc: Global, count: usize, bytes: &[u8]) -> Result<Vec<u8>, NoMemory>
    ensures { IfOk result (λ all. all.items ≡ repeat count (codes " ") ++ bytes.now) }
{
    let spaces = " ".repeat(alloc, count)?;
    let mut all = Vec::new(alloc);
    all.extend_from_slice(spaces.as_bytes())?;
    all.extend_from_slice(bytes)?;
    Ok(all)
}

/// The body of a `to` line at its place, with spaces before it.
pub(crate) fn body_of(alloc: Global, line: &[u8]) -> Result<Text, RowError>
    ensures { MatchResult result (IsBodyText line.now) (NoneIs (IsBodyText line.now)) }
{
    match split_body(line) {
        Some((count, body)) => {
            let all = behind_spaces(alloc, count, body)?;
            row_text(alloc, &all)
        }
        None => Err(RowError::Shape),
    }
}
