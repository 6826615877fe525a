//! The first text of a list that breaks a rule.

ghost use Rattle.std.specs.Prelude.{◌↔◌, IsTrue, MatchOption, IfOk};
ghost use Rattle.sx_grammar.specs.Parts.{texts};
ghost use Rattle.sx_grammar.specs.Numbering.{IsNumberedAs};
ghost use Rattle.sx_grammar.specs.Made.{IsFirstWith, HasNone, IsBadLiteral, IsLexical};
ghost use Rattle.sx_grammar.specs.Made.{IsUnknownSort};

use std::alloc::Global;
use sx_term::{LiteralShape, Names, NoMemory, Text, literal_shape};

/// Whether the text is neither a word nor symbol characters without `//`.
fn is_bad_literal(text: &Text) -> bool
    ensures { IsTrue result ↔ IsBadLiteral text.now }
{
    literal_shape(text) == LiteralShape::Bad
}

/// The first bad literal.
pub(crate) fn first_bad<'a>(literals: &[&'a Text]) -> Option<&'a Text>
    ensures { MatchOption result (HasNone IsBadLiteral (texts literals.now))
        (λ t. IsFirstWith IsBadLiteral (texts literals.now) t.now) }
{
    for text in literals {
        if is_bad_literal(text) {
            return Some(*text);
        }
    }
    None
}

/// The distinct texts of a list as names, or the first text that stands in the list before.
pub(crate) enum Numbering<'a> {
    Distinct(Names),
    Again(&'a Text),
}

/// The texts as names.
pub(crate) fn number<'a>(alloc: Global, list: &[&'a Text]) -> Result<Numbering<'a>, NoMemory>
    ensures { IfOk result (λ r. IsNumberedAs (texts list.now) r) }
{
    let mut names = Names::new(alloc);
    for text in list {
        if names.number(text.bytes()).is_some() {
            drop(names);
            return Ok(Numbering::Again(*text));
        }
        if let Err(e) = names.push(alloc, text.bytes()) {
            drop(names);
            return Err(e);
        }
    }
    Ok(Numbering::Distinct(names))
}

/// Whether the name is that of a lexical sort.
fn is_lexical(name: &Text) -> bool
    ensures { IsTrue result ↔ IsLexical name.now }
{
    let name = name.as_str();
    name == "id" || name == "num" || name == "str"
}

/// Whether the name is none of the names, or is that of a lexical sort.
fn is_unknown(names: &Names, name: &Text) -> bool
    ensures { IsTrue result ↔ IsUnknownSort names.now name.now }
{
    is_lexical(name) || names.number(name.bytes()).is_none()
}

/// The first name that is none of the names, or is that of a lexical sort.
pub(crate) fn first_unknown<'a>(names: &Names, list: &[&'a Text]) -> Option<&'a Text>
    ensures { MatchOption result (HasNone (IsUnknownSort names.now) (texts list.now))
        (λ t. IsFirstWith (IsUnknownSort names.now) (texts list.now) t.now) }
{
    for name in list {
        if is_unknown(names, name) {
            return Some(*name);
        }
    }
    None
}
