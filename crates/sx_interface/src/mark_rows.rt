//! Rows with a name and a digest.

ghost use Rattle.std.specs.Prelude.{◌≡◌, [], codes, option_map, true, false, IfOk, IfSome};
ghost use Rattle.std.specs.Str.{IsUtf8};
ghost use Rattle.sx_lines.specs.Left.{left};
ghost use Rattle.sx_lines.specs.Reading.{GivesRead, next_line};
ghost use Rattle.sx_lines.specs.Rows.{distinct_rows};
ghost use Rattle.sx_lines.specs.Words.{is_name};
ghost use Rattle.sx_interface.specs.Interfaces as spec;
ghost use Rattle.sx_interface.specs.InterfaceView.{marks_view, import_view};
ghost use Rattle.sx_interface.specs.Reading.{RefusesHeader};

use crate::error::HeaderError;
use crate::interfaces::ImportMark;
use crate::marks::{Digest, read_digest};
use crate::texts::name_text;
use std::alloc::Global;
use sx_lines::{Rest, after, is_name, split_word};
use sx_term::Names;

/// The name and the digest that a text states.
#[tactic(auto, unfolding(crate::specs::Interfaces::mark_of))]
fn mark_of(text: &[u8]) -> Option<(&[u8], Digest)>
    ensures value { option_map import_view result ≡ spec.mark_of text.entry.now }
    ensures named { IfSome result (λ mark. is_name false mark.0.now ≡ true) }
{
    let (name, digits) = split_word(text);
    match read_digest(digits) {
        Some(digest) => {
            if !is_name(false, name) {
                return None;
            }
            Some((name, digest))
        }
        None => None,
    }
}

/// The name and the digest in a row with this front.
#[tactic(auto, unfolding(crate::specs::Interfaces::mark_after))]
fn mark_after<'a>(text: &'a [u8], front: &[u8]) -> Option<(&'a [u8], Digest)>
    ensures value { option_map import_view result ≡ spec.mark_after front.now text.entry.now }
    ensures named { IfSome result (λ mark. is_name false mark.0.now ≡ true) }
{
    match after(text, front) {
        Some(mark) => mark_of(mark),
        None => None,
    }
}

/// The name and the digest in the next row, and what is left after it.
#[tactic(auto, unfolding(sx_lines::specs::Reading::next_line))]
pub(crate) fn language_row<'a>(
    rest: Rest<'a>,
) -> Result<((&'a [u8], Digest), Rest<'a>), HeaderError>
    ensures line { GivesRead (λ x. (import_view x.0, left x.1)) RefusesHeader result
        (next_line (spec.mark_after (codes "language ")) (left rest.entry)) }
    ensures named { IfOk result (λ x. is_name false x.0.0.now ≡ true) }
    ensures utf8 { IsUtf8 rest.entry.bytes.now → IfOk result (λ x. IsUtf8 x.1.bytes.now) }
{
    let (line, more) = rest.next()?;
    match mark_after(line.text, b"language ") {
        Some(mark) => Ok((mark, more)),
        None => Err(HeaderError::Header(line.number)),
    }
}

/// Appends the marks in the next rows with this front, of whose names none was seen, and answers
/// what is left after them.
fn add_rows<'a>(
    alloc: Global,
    front: &[u8],
    rest: Rest<'a>,
    seen: &mut Names,
    marks: &mut Vec<ImportMark>,
) -> Result<Rest<'a>, HeaderError>
    requires seen { seen.old ≡ [] }
    requires marks { marks.old.items ≡ [] }
    ensures rows { GivesRead (λ x. (marks_view marks.new.items, left x)) RefusesHeader result
        (distinct_rows (λ m. m.name) (spec.mark_after front.now) [] (left rest.entry)) }
    ensures utf8 { IsUtf8 rest.entry.bytes.now → IfOk result (λ x. IsUtf8 x.bytes.now) }
{
    let mut rest = rest;
    'rows: while let Ok((line, more)) = rest.next() {
        match mark_after(line.text, front) {
            Some((name, digest)) => {
                if seen.has(name) {
                    return Err(HeaderError::Header(line.number));
                }
                seen.push(alloc, name)?;
                let name = name_text(alloc, name)?;
                marks.push(ImportMark { name, digest })?;
            }
            None => return Ok(rest),
        }
        rest = more;
    }
    Ok(rest)
}

/// Appends the marks in the next rows with this front, whose names are distinct, and answers what
/// is left after them.
pub(crate) fn mark_rows<'a>(
    alloc: Global,
    front: &[u8],
    rest: Rest<'a>,
    marks: &mut Vec<ImportMark>,
) -> Result<Rest<'a>, HeaderError>
    requires { marks.old.items ≡ [] }
    ensures rows { GivesRead (λ x. (marks_view marks.new.items, left x)) RefusesHeader result
        (distinct_rows (λ m. m.name) (spec.mark_after front.now) [] (left rest.entry)) }
    ensures utf8 { IsUtf8 rest.entry.bytes.now → IfOk result (λ x. IsUtf8 x.bytes.now) }
{
    let mut seen = Names::new(alloc);
    let read = add_rows(alloc, front, rest, &mut seen, marks);
    drop(seen);
    read
}
