//! The shapes of literals.

ghost use Rattle.std.specs.Prelude.{◌≡◌, ◌↔◌, IsTrue};
ghost use Rattle.sx_term.specs.Cutting.{AreSymbols};
ghost use Rattle.sx_term.specs.Spaced.{IsWordLiteral, IsSymbolLiteral};

use crate::runs::{Run, run_len, word_len};
use crate::text::Text;

/// What a text is as a literal of a grammar.
#[derive(Clone, Copy, PartialEq, Eq, Debug)]
pub enum LiteralShape {
    /// A word: a character that can begin an identifier or `_`, and then characters that can go on
    /// with one.
    Word,
    /// One or more symbol characters, without `//`.
    Symbol,
    /// Neither, so that it can be no literal.
    Bad,
}

/// Whether the text is one word.
fn is_word(text: &str) -> bool
    ensures { IsTrue result ↔ IsWordLiteral text.now }
{
    let len = word_len(text);
    len > 0 && len == text.len()
}

/// Whether the text is one or more symbol characters.
fn is_symbols(text: &str) -> bool
    ensures { IsTrue result ↔ AreSymbols text.now }
{
    let len = run_len(Run::Symbols, text);
    len > 0 && len == text.len()
}

/// Whether the text is a literal of symbol characters.
fn is_symbol_literal(text: &str) -> bool
    ensures { IsTrue result ↔ IsSymbolLiteral text.now }
{
    is_symbols(text) && !text.contains("//")
}

/// The shape of a text as a literal. No text is both a word and symbol characters.
pub fn literal_shape(text: &Text) -> LiteralShape
    ensures word { (result ≡ LiteralShape.Word) ↔ IsWordLiteral text.now }
    ensures symbol { (result ≡ LiteralShape.Symbol) ↔ IsSymbolLiteral text.now }
{
    let text = text.as_str();
    if is_word(text) {
        LiteralShape::Word
    } else if is_symbol_literal(text) {
        LiteralShape::Symbol
    } else {
        LiteralShape::Bad
    }
}
