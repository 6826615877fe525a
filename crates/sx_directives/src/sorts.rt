//! Reading sorts as they are spelled in symbols.

ghost use Rattle.std.specs.Prelude.{◌≡◌, ◌++◌, ◌∷◌, MatchOption, MatchResult};
ghost use Rattle.sx_directives.specs.Spelling.{lex_text, NotLexical, NoAt, IsLevelled, IsSortName};
ghost use Rattle.sx_directives.specs.Spelling.{SpellsSort, NoneIs};

use crate::part_texts::name_of;
use crate::row_error::RowError;
use crate::spelled::SpelledSort;
use std::alloc::Global;
use sx_lines::number_within;
use sx_term::{LexKind, Text};

/// The lexical kind that a part names: `id`, `num` or `str`. `None` comes exactly where it is none
/// of these.
pub fn lexical_kind(part: &[u8]) -> Option<LexKind>
    ensures { MatchOption result (NotLexical part.now) (λ kind. part.now ≡ lex_text kind) }
{
    if part == b"id".as_slice() {
        return Some(LexKind::Id);
    }
    if part == b"num".as_slice() {
        return Some(LexKind::Num);
    }
    if part == b"str".as_slice() {
        return Some(LexKind::Str);
    }
    None
}

/// The name of a sort that is not lexical.
pub(crate) fn sort_name_of(alloc: Global, part: &[u8]) -> Result<Text, RowError>
    ensures { MatchResult result (IsSortName part.now) (NoneIs (IsSortName part.now)) }
{
    if lexical_kind(part).is_some() {
        return Err(RowError::Shape);
    }
    name_of(alloc, part)
}

/// What stands before the first `@`, and what stands after it.
fn split_level(part: &[u8]) -> Option<(&[u8], &[u8])>
    ensures { MatchOption result (NoAt part.now)
        (λ x. (part.now ≡ x.0.now ++ 64 ∷ x.1.now) × NoAt x.0.now) }
{
    for (at, b) in part.iter().enumerate() {
        if *b == b'@' {
            let (name, rest) = part.split_at(at);
            let (_sign, digits) = rest.split_at(1);
            return Some((name, digits));
        }
    }
    None
}

/// The sort with a least level that a name and digits spell.
fn levelled(alloc: Global, name: &[u8], digits: &[u8]) -> Result<SpelledSort, RowError>
    ensures { MatchResult result (IsLevelled name.now digits.now)
        (NoneIs (IsLevelled name.now digits.now)) }
{
    match number_within(99, digits) {
        Some(least) => match name_of(alloc, name) {
            Ok(sort) => Ok(SpelledSort::Named {
                sort,
                least: least as u8,
            }),
            Err(e) => Err(e),
        },
        None => Err(RowError::Shape),
    }
}

/// The sort that a part spells.
pub(crate) fn sort_of(alloc: Global, part: &[u8]) -> Result<SpelledSort, RowError>
    ensures { MatchResult result (SpellsSort part.now) (NoneIs (SpellsSort part.now)) }
{
    if let Some(kind) = lexical_kind(part) {
        return Ok(SpelledSort::Lex(kind));
    }
    match split_level(part) {
        Some((name, digits)) => levelled(alloc, name, digits),
        None => match name_of(alloc, part) {
            Ok(sort) => Ok(SpelledSort::Named { sort, least: 0 }),
            Err(e) => Err(e),
        },
    }
}
