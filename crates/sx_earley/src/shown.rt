//! What tokens show to a grammar.

ghost use Rattle.std.specs.Prelude.{◌≡◌, ◌↔◌, IsTrue, Some, length, slice_get};
ghost use Rattle.sx_grammar.specs.Items.{ReadsToken};
ghost use Rattle.sx_grammar.specs.Numbered.{symbol};
ghost use Rattle.sx_earley.specs.Shown.{TakesShown, IsLiteralBelow, ShownBelow, literal_texts};
ghost use Rattle.sx_earley.specs.Shown.{tokens_of};
ghost use Rattle.sx_earley.specs.Showing.{IsLiteralShown};

use sx_grammar::{Grammar, NumberedSymbol};
use sx_term::LexKind;

/// What a token shows to a grammar: a literal by its number, a lexeme of a kind, a metavariable for
/// a lexeme of a kind or for a term of the sort with this number, or a literal that is none of the
/// grammar's.
#[derive(Clone, Copy)]
pub enum Shown {
    Lit(u32),
    Lex(LexKind),
    Kind(LexKind),
    Sort(u32),
    Other,
}

/// Whether the literal with the number has these bytes.
fn has_literal(grammar: &Grammar, number: u32, text: &[u8]) -> bool
    ensures { IsTrue result ↔ (slice_get (literal_texts grammar.now) number ≡ Some text.now) }
{
    match grammar.literals().get(number as usize) {
        None => false,
        Some(literal) => literal.bytes() == text,
    }
}

/// What a literal with these bytes shows to the grammar. The number that it has elsewhere is looked
/// at first, and its bytes are looked up where that is another literal's.
pub(crate) fn literal_shown(grammar: &Grammar, number: u32, text: &[u8]) -> Shown
    ensures { IsLiteralShown (literal_texts grammar.now) text.now result }
{
    if has_literal(grammar, number, text) {
        return Shown::Lit(number);
    }
    match grammar.literal_number(text) {
        Some(own) => Shown::Lit(own),
        None => Shown::Other,
    }
}

/// Whether the symbol reads what is shown.
fn takes(expected: NumberedSymbol, shown: Shown) -> bool
    ensures { IsTrue result ↔ TakesShown expected shown }
{
    match (expected, shown) {
        (NumberedSymbol::Lit(a), Shown::Lit(b)) => a == b,
        (NumberedSymbol::Lex(a), Shown::Lex(b)) => a == b,
        (NumberedSymbol::Lex(a), Shown::Kind(b)) => a == b,
        (NumberedSymbol::Part { sort, least: _ }, Shown::Sort(b)) => sort == b,
        _ => false,
    }
}

/// Whether the symbol reads by itself what is shown at the place.
pub fn reads(grammar: &Grammar, expected: NumberedSymbol, shown: &[Shown], place: u32) -> bool
    requires expected { IsLiteralBelow (length (literal_texts grammar.now)) expected }
    requires shown { ShownBelow (length (literal_texts grammar.now)) shown.now }
    ensures { IsTrue result ↔ ReadsToken (tokens_of grammar.now shown.now)
        (symbol (literal_texts grammar.now) expected) place }
{
    grammar.facts();
    match shown.get(place as usize) {
        None => false,
        Some(token) => takes(expected, *token),
    }
}
