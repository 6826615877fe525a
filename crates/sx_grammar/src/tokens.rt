//! Literals and lexical kinds among symbols.

ghost use Rattle.std.specs.Prelude.{◌≡◌, map, IsTrue};
ghost use Rattle.std.specs.List.{list_any};
ghost use Rattle.sx_grammar.specs.Parts.{line};
ghost use Rattle.sx_grammar.specs.Extended.{is_token, LacksTokens};
ghost use Rattle.sx_grammar.specs.Made.{HasNone};

use crate::production::Production;
use crate::symbol::Symbol;

/// Whether the symbol is a literal or a lexical kind.
fn is_token(symbol: &Symbol) -> bool
    ensures { result ≡ is_token symbol.now }
{
    match symbol {
        Symbol::Lit(_) => true,
        Symbol::Lex(_) => true,
        Symbol::Part { sort: _, least: _ } => false,
    }
}

/// Whether one of the symbols is a literal or a lexical kind.
fn has_token(symbols: &[Symbol]) -> bool
    ensures { result ≡ list_any is_token symbols.now }
{
    for symbol in symbols {
        if is_token(symbol) {
            return true;
        }
    }
    false
}

/// Whether each of the productions has a literal or a lexical kind.
pub(crate) fn have_tokens(productions: &[Production]) -> bool
    ensures { IsTrue result → HasNone LacksTokens (map line productions.now) }
{
    for production in productions {
        if !has_token(&production.symbols) {
            return false;
        }
    }
    true
}
