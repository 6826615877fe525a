//! The rows of headers and interfaces.

ghost use Rattle.std.specs.Prelude.{◌≡◌, ◌+◌, [], ◌++◌, codes, true, false, IfOk};
ghost use Rattle.std.specs.Prelude.{IfSome};
ghost use Rattle.std.specs.Option.{option_copied};
ghost use Rattle.std.specs.Str.{bytes_eq};
ghost use Rattle.sx_lines.specs.Left.{left};
ghost use Rattle.sx_lines.specs.Reading.{GivesRead, the_line, next_line, kept};
ghost use Rattle.sx_lines.specs.Rows as spec;
ghost use Rattle.sx_lines.specs.Words.{is_name};
ghost use Rattle.sx_interface.specs.Reading.{RefusesHeader};

use crate::error::HeaderError;
use crate::texts::name_text;
use std::alloc::Global;
use sx_lines::{Rest, after, is_name};
use sx_term::{Names, Text};

/// The name that a row with this front states.
#[tactic(auto, unfolding(sx_lines::specs::Rows::name_after))]
fn name_after<'a>(text: &'a [u8], front: &[u8]) -> Option<&'a [u8]>
    ensures value { option_copied result ≡ spec.name_after front.now text.entry.now }
    ensures named { IfSome result (λ name. is_name false name.now ≡ true) }
{
    match after(text, front) {
        Some(name) => {
            if !is_name(false, name) {
                return None;
            }
            Some(name)
        }
        None => None,
    }
}

/// Whether the text is the front and then the name.
pub fn is_row(text: &[u8], front: &[u8], name: &[u8]) -> bool
    ensures { result ≡ bytes_eq text.now (front.now ++ name.now) }
{
    match after(text, front) {
        Some(found) => found == name,
        None => false,
    }
}

/// What is left after the line `module` and the name.
#[tactic(auto, unfolding(sx_lines::specs::Reading::the_line))]
pub fn module_line<'a>(name: &[u8], rest: Rest<'a>) -> Result<Rest<'a>, HeaderError>
    ensures { GivesRead (λ x. kept (left x)) RefusesHeader result
        (the_line (codes "module " ++ name.now) (kept (left rest.entry))) }
{
    let (line, more) = rest.next_kept()?;
    if !is_row(line.text, b"module ", name) {
        return Err(HeaderError::Header(line.number));
    }
    Ok(more)
}

/// The name in the next row, and what is left after it.
#[tactic(auto, unfolding(sx_lines::specs::Reading::next_line))]
pub fn name_row<'a>(front: &[u8], rest: Rest<'a>) -> Result<(&'a [u8], Rest<'a>), HeaderError>
    ensures row { GivesRead (λ x. (x.0.now, kept (left x.1))) RefusesHeader result
        (next_line (spec.name_after front.now) (kept (left rest.entry))) }
    ensures named { IfOk result (λ x. is_name false x.0.now ≡ true) }
{
    let (line, more) = rest.next_kept()?;
    match name_after(line.text, front) {
        Some(name) => Ok((name, more)),
        None => Err(HeaderError::Header(line.number)),
    }
}

/// Appends the names in the next rows, of which none was seen, and answers what is left after them.
fn add_rows<'a>(
    alloc: Global,
    front: &[u8],
    rest: Rest<'a>,
    seen: &mut Names,
    names: &mut Vec<Text>,
) -> Result<Rest<'a>, HeaderError>
    requires seen { seen.old ≡ [] }
    requires names { names.old.items ≡ [] }
    ensures { GivesRead (λ x. (names.new.items, kept (left x))) RefusesHeader result
        (spec.distinct_names front.now (kept (left rest.entry))) }
{
    let mut rest = rest;
    'rows: while let Ok((line, more)) = rest.next_kept() {
        match name_after(line.text, front) {
            Some(name) => {
                if seen.has(name) {
                    return Err(HeaderError::Header(line.number));
                }
                seen.push(alloc, name)?;
                names.push(name_text(alloc, name)?)?;
            }
            None => return Ok(rest),
        }
        rest = more;
    }
    Ok(rest)
}

/// Appends the distinct names in the next rows, and answers what is left after them.
pub fn name_rows<'a>(
    alloc: Global,
    front: &[u8],
    rest: Rest<'a>,
    names: &mut Vec<Text>,
) -> Result<Rest<'a>, HeaderError>
    requires { names.old.items ≡ [] }
    ensures { GivesRead (λ x. (names.new.items, kept (left x))) RefusesHeader result
        (spec.distinct_names front.now (kept (left rest.entry))) }
{
    let mut seen = Names::new(alloc);
    let read = add_rows(alloc, front, rest, &mut seen, names);
    drop(seen);
    read
}

/// What is left after the line `---`: the body.
#[tactic(auto, unfolding(sx_lines::specs::Rows::bytes_after))]
pub fn end_line<'a>(rest: Rest<'a>) -> Result<Rest<'a>, HeaderError>
    ensures { GivesRead (λ x. (x.number, x.bytes.now)) RefusesHeader result
        (spec.bytes_after (codes "---") (kept (left rest.entry))) }
{
    let (line, more) = rest.next_kept()?;
    if line.text != b"---".as_slice() {
        return Err(HeaderError::Header(line.number));
    }
    Ok(more)
}
