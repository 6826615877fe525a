//! The parts of a line.

ghost use Rattle.std.specs.Prelude.{◌≡◌, ◌<◌, [], ◌∷◌, length, MatchOption, IfOk, IfSome};
ghost use Rattle.sx_lines.specs.Bytes as spec;
ghost use Rattle.sx_directives.specs.Parts.{parts_of, IsBlankFront, IsPartEnd};
ghost use Rattle.sx_grammar.specs.Parts.{texts};

use std::alloc::Global;
use sx_term::NoMemory;

/// Whether the byte is a blank, which stands between the parts of a line: a space, a tab or a
/// carriage return.
pub fn is_blank(c: u8) -> bool
    ensures { result ≡ spec.is_blank c }
{
    c == b' ' || c == b'\t' || c == b'\r'
}

/// How many blanks stand at the front.
pub(crate) fn blanks_len(text: &[u8]) -> usize
    ensures { IsBlankFront text.now result }
{
    for (at, b) in text.iter().enumerate() {
        if !is_blank(*b) {
            return at;
        }
    }
    text.len()
}

/// How many bytes stand before the first blank.
fn part_len(text: &[u8]) -> usize
    ensures { IsPartEnd text.now result }
{
    for (at, b) in text.iter().enumerate() {
        if is_blank(*b) {
            return at;
        }
    }
    text.len()
}

/// The first part of a text, and what is left after it.
pub fn next_part(text: &[u8]) -> Option<(&[u8], &[u8])>
    ensures parts { MatchOption result (parts_of text.now ≡ [])
        (λ x. parts_of text.now ≡ x.0.now ∷ parts_of x.1.now) }
    ensures shorter { IfSome result (λ x. length x.1.now < length text.now) }
{
    let (_blanks, rest) = text.split_at(blanks_len(text));
    if rest.is_empty() {
        return None;
    }
    Some(rest.split_at(part_len(rest)))
}

/// The parts of a line: its maximal runs of bytes that are no blank.
pub(crate) fn split_parts<'a>(alloc: Global, line: &'a [u8]) -> Result<Vec<&'a [u8]>, NoMemory>
    ensures { IfOk result (λ parts. texts parts.items ≡ parts_of line.entry.now) }
{
    let mut parts = Vec::new(alloc);
    let mut left = line;
    while let Some((part, rest)) = next_part(left) {
        parts.push(part)?;
        left = rest;
    }
    Ok(parts)
}
