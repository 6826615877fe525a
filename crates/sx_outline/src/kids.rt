//! The parts of a production.

ghost use Rattle.std.specs.Prelude.{◌≡◌, ◌↔◌, IsTrue, List, [], ◌∷◌, MatchOption};
ghost use Rattle.sx_term.specs.declared.lex_kind.LexKind.TheVariants as kinds;
ghost use Rattle.sx_outline.specs.Fitting.{Kid, kid_of, kid_sort, parts_of_symbols, of_kind};
ghost use Rattle.sx_outline.specs.Fitting.{of_sort};
ghost use Rattle.sx_outline.specs.MainSorts.{IsKid};

use sx_directives::lexical_kind;
use sx_grammar::Symbol;
use sx_term::{LexKind, Text};

/// Whether the symbol is a literal.
fn is_literal(symbol: &Symbol) -> bool
    ensures { IsTrue result ↔ (kid_of symbol.now ≡ []) }
{
    match symbol {
        Symbol::Lit(_) => true,
        Symbol::Lex(_) | Symbol::Part { sort: _, least: _ } => false,
    }
}

/// The first part, and the symbols after it.
pub(crate) fn next_kid(symbols: &[Symbol]) -> Option<(&Symbol, &[Symbol])>
    ensures { MatchOption result (parts_of_symbols symbols.now ≡ [])
        (λ x. (kid : Kid) × IsKid x.0.now kid × (parts_of_symbols symbols.now ≡ kid
        ∷ parts_of_symbols x.1.now)) }
{
    for i in 0..symbols.len() {
        if !is_literal(&symbols[i]) {
            let (_literals, rest) = symbols.split_at(i);
            return rest.split_first();
        }
    }
    None
}

/// Whether there are no parts.
pub(crate) fn has_no_kid(symbols: &[Symbol]) -> bool
    ensures { IsTrue result ↔ (parts_of_symbols symbols.now ≡ []) }
{
    next_kid(symbols).is_none()
}

/// Whether the symbol is a part of this sort.
fn is_of_sort(symbol: &Symbol, sort: &Text) -> bool
    ensures { IsTrue result ↔ IsKid symbol.now (of_sort sort.now) }
{
    match symbol {
        Symbol::Lit(_) | Symbol::Lex(_) => false,
        Symbol::Part {
            sort: named,
            least: _,
        } => named.same(sort),
    }
}

/// Whether the symbol is a part whose sort has this name.
pub(crate) fn is_sort_of(symbol: &Symbol, sort: &Text) -> bool
    ensures { (kid : Kid) → IsKid symbol.now kid → IsTrue result ↔ (sort.now ≡ kid_sort kid) }
{
    match symbol {
        Symbol::Lit(_) => false,
        Symbol::Lex(kind) => lexical_kind(sort.bytes()) == Some(*kind),
        Symbol::Part {
            sort: named,
            least: _,
        } => named.same(sort),
    }
}

/// Whether the symbol is an identifier.
fn is_id(symbol: &Symbol) -> bool
    ensures { IsTrue result ↔ IsKid symbol.now (of_kind kinds.Id) }
{
    matches!(symbol, Symbol::Lex(LexKind::Id))
}

/// The symbols after the first part, where that is of this sort.
fn after_sort<'a>(symbols: &'a [Symbol], sort: &Text) -> Option<&'a [Symbol]>
    ensures { MatchOption result ((kids : List Kid) →
        parts_of_symbols symbols.entry.now ≡ of_sort sort.now ∷ kids → ⊥)
        (λ rest. parts_of_symbols symbols.entry.now ≡ of_sort sort.now
        ∷ parts_of_symbols rest.now) }
{
    match next_kid(symbols) {
        Some((kid, rest)) => {
            if is_of_sort(kid, sort) {
                return Some(rest);
            }
            None
        }
        None => None,
    }
}

/// The symbols after the first part, where that is an identifier.
fn after_id(symbols: &[Symbol]) -> Option<&[Symbol]>
    ensures { MatchOption result ((kids : List Kid) →
        parts_of_symbols symbols.now ≡ of_kind kinds.Id ∷ kids → ⊥)
        (λ rest. parts_of_symbols symbols.now ≡ of_kind kinds.Id ∷ parts_of_symbols rest.now) }
{
    match next_kid(symbols) {
        Some((kid, rest)) => {
            if is_id(kid) {
                return Some(rest);
            }
            None
        }
        None => None,
    }
}

/// Whether the parts are an environment, a name and a signature.
pub(crate) fn are_add_kids(symbols: &[Symbol], environment: &Text, signature: &Text) -> bool
    ensures { IsTrue result ↔ (parts_of_symbols symbols.now
        ≡ of_sort environment.now ∷ of_kind kinds.Id ∷ of_sort signature.now ∷ []) }
{
    match after_sort(symbols, environment) {
        Some(rest) => match after_id(rest) {
            Some(rest) => match after_sort(rest, signature) {
                Some(rest) => has_no_kid(rest),
                None => false,
            },
            None => false,
        },
        None => false,
    }
}
