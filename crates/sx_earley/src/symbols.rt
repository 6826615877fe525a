//! The symbols of heads.

ghost use Rattle.std.specs.Prelude.{◌≡◌, ◌↔◌, ◌<◌, ◌≤◌, ◌^◌, IsTrue, IfSome, length, slice_get};
ghost use Rattle.std.specs.Prelude.{ℕ, Some, List, option_map, is_some};
ghost use Rattle.sx_grammar.specs.Numbered.{symbol, production};
ghost use Rattle.sx_grammar.specs.Grammar.{Text, production_of};
ghost use Rattle.sx_earley.specs.Shown.{plain, literal_texts, pair_symbol, IsLiteralBelow};
ghost use Rattle.sx_earley.specs.Shown.{LiteralsBelow};
ghost use Rattle.sx_earley.specs.Chart.{symbol_after, next_symbol, as_part, HasDotAtEnd};
ghost use Rattle.sx_earley.specs.Chart.{IsOfSort, sort_made, sort_and_level, IsTokenSymbol};
ghost use Rattle.sx_earley.specs.Dotted.{IsNextSymbol, HasMade, HasEnded};

use sx_grammar::{Grammar, Head, Item, NumberedProduction, NumberedSymbol};

/// The production with this label.
pub fn production_at(grammar: &Grammar, label: u32) -> Option<&NumberedProduction>
    ensures is { option_map (λ p. production (literal_texts grammar.now) p.now) result
        ≡ slice_get (plain grammar.now).productions label }
    ensures below { IfSome result (λ p. LiteralsBelow (length
        (literal_texts grammar.now)) p.now.symbols.items) }
{
    grammar.productions().get(label as usize)
}

/// The symbol at this place of the production with this label.
fn symbol_at(grammar: &Grammar, label: u32, dot: usize) -> Option<NumberedSymbol>
    ensures is { option_map (symbol (literal_texts grammar.now)) result
        ≡ symbol_after (slice_get (plain grammar.now).productions label) dot }
    ensures below { IfSome result (IsLiteralBelow (length (literal_texts grammar.now))) }
    ensures small { IfSome result (λ _. dot < 2 ^ 63) }
{
    let production = production_at(grammar, label)?;
    production.symbols.get(dot).copied()
}

/// The symbol at this place of the bracket pair of the sort.
fn bracket_symbol(pair: Option<(u32, u32)>, sort: u32, dot: usize) -> Option<NumberedSymbol>
    ensures is { result ≡ pair_symbol pair sort dot }
    ensures small { IfSome result (λ _. dot < 2 ^ 63) }
{
    let (opening, closing) = pair?;
    match dot {
        0 => Some(NumberedSymbol::Lit(opening)),
        1 => Some(NumberedSymbol::Part { sort, least: 0 }),
        2 => Some(NumberedSymbol::Lit(closing)),
        _ => None,
    }
}

/// The symbol after the dot, or None at the end and where the head makes nothing.
pub fn symbol_of(grammar: &Grammar, head: Head, dot: usize) -> Option<NumberedSymbol>
    ensures is { option_map (symbol (literal_texts grammar.now)) result
        ≡ next_symbol (plain grammar.now) head dot }
    ensures below { IfSome result (IsLiteralBelow (length (literal_texts grammar.now))) }
    ensures small { IfSome result (λ _. dot < 2 ^ 63) }
{
    match head {
        Head::Labelled(label) => symbol_at(grammar, label, dot),
        Head::Bracketed(sort) => bracket_symbol(grammar.brackets(sort), sort, dot),
    }
}

/// The sort and the least level of the symbol, if it is a part.
#[inline(always)]
pub(crate) fn part_of(next: Option<NumberedSymbol>) -> Option<(u32, u8)>
    ensures { (literals : List Text) → result ≡ as_part (option_map (symbol literals) next) }
{
    match next {
        Some(NumberedSymbol::Part { sort, least }) => Some((sort, least)),
        _ => None,
    }
}

/// Whether the symbol is that of one token.
#[inline(always)]
pub(crate) fn is_token(next: NumberedSymbol) -> bool
    ensures { (literals : List Text) → IsTrue result ↔ IsTokenSymbol (symbol literals next) }
{
    match next {
        NumberedSymbol::Lit(_) => true,
        NumberedSymbol::Lex(_) => true,
        NumberedSymbol::Part { sort: _, least: _ } => false,
    }
}

/// The sort and the least level of the part after the dot, or None where no part stands there.
pub(crate) fn next_part(grammar: &Grammar, head: Head, dot: usize) -> Option<(u32, u8)>
    ensures is { result ≡ as_part (next_symbol (plain grammar.now) head dot) }
    ensures below { IfSome result (λ _. dot < 2 ^ 63) }
{
    match symbol_of(grammar, head, dot) {
        Some(NumberedSymbol::Part { sort, least }) => Some((sort, least)),
        _ => None,
    }
}

/// Whether there is a pair and the dot stands after its three symbols.
fn pair_ends(pair: Option<(u32, u32)>, dot: usize) -> bool
    ensures { IsTrue result ↔ (IsTrue (is_some pair) × (dot ≡ 3)) }
{
    pair.is_some() && dot == 3
}

/// Whether the dot stands at the end.
pub(crate) fn ends_at(grammar: &Grammar, head: Head, dot: usize) -> bool
    ensures { IsTrue result ↔ HasDotAtEnd (production_of (plain grammar.now) head) dot }
{
    match head {
        Head::Labelled(label) => match production_at(grammar, label) {
            None => false,
            Some(production) => production.symbols.len() == dot,
        },
        Head::Bracketed(sort) => pair_ends(grammar.brackets(sort), dot),
    }
}

/// The sort that the head makes, or None where it makes nothing.
pub fn sort_of(grammar: &Grammar, head: Head) -> Option<u32>
    ensures { result ≡ sort_made (production_of (plain grammar.now) head) }
{
    match head {
        Head::Labelled(label) => match production_at(grammar, label) {
            None => None,
            Some(production) => Some(production.sort),
        },
        Head::Bracketed(sort) => match grammar.brackets(sort) {
            None => None,
            Some(_) => Some(sort),
        },
    }
}

/// The sort that the head makes and the level, or None where it makes nothing.
pub(crate) fn made_by(grammar: &Grammar, head: Head) -> Option<(u32, u8)>
    ensures { result ≡ sort_and_level (production_of (plain grammar.now) head) }
{
    match head {
        Head::Labelled(label) => match production_at(grammar, label) {
            None => None,
            Some(production) => Some((production.sort, production.level)),
        },
        Head::Bracketed(sort) => match grammar.brackets(sort) {
            None => None,
            Some(_) => Some((sort, 100)),
        },
    }
}

/// The sort that the head makes, if the dot stands at the end.
fn sort_at_end(grammar: &Grammar, head: Head, dot: usize) -> Option<u32>
    ensures made { (sort : ℕ) → HasDotAtEnd (production_of (plain grammar.now) head) dot →
        sort_made (production_of (plain grammar.now) head) ≡ Some sort → result ≡ Some sort }
    ensures complete { IfSome result
        (λ _. HasDotAtEnd (production_of (plain grammar.now) head) dot) }
{
    if ends_at(grammar, head, dot) {
        sort_of(grammar, head)
    } else {
        None
    }
}

/// The sort that the item has made, if it is complete; where this symbol stands after its dot, it
/// is not.
pub(crate) fn sort_made(
    grammar: &Grammar,
    item: Item,
    symbol: Option<NumberedSymbol>,
) -> Option<u32>
    requires { IsNextSymbol grammar.now item symbol }
    ensures made { HasMade (plain grammar.now) item result }
    ensures complete { IfSome result (λ _. HasEnded (plain grammar.now) item) }
{
    match symbol {
        Some(_) => None,
        None => sort_at_end(grammar, item.head, item.dot),
    }
}

/// Whether there is a pair, and a level of 100 of its sort is what is asked for.
fn pair_makes(pair: Option<(u32, u32)>, own: u32, sort: u32, least: u8) -> bool
    ensures { IsTrue result ↔ (IsTrue (is_some pair) × (own ≡ sort) × (least ≤ 100)) }
{
    pair.is_some() && own == sort && least <= 100
}

/// Whether the head makes the sort at least the level.
pub fn makes(grammar: &Grammar, head: Head, sort: u32, least: u8) -> bool
    ensures { IsTrue result ↔ IsOfSort (production_of (plain grammar.now) head) sort least }
{
    match head {
        Head::Labelled(label) => match production_at(grammar, label) {
            None => false,
            Some(production) => production.sort == sort && production.level >= least,
        },
        Head::Bracketed(own) => pair_makes(grammar.brackets(own), own, sort, least),
    }
}
