//! The levels from which heads can be of use up to a place.

ghost use Rattle.std.specs.Prelude.{suc, ◌≡◌, ◌↔◌, ℕ, IsTrue, IfSome, Some, length, option_map};
ghost use Rattle.sx_grammar.specs.Grammar.{part, production_of};
ghost use Rattle.sx_grammar.specs.Numbered.{symbol};
ghost use Rattle.sx_grammar.specs.declared.head.Head.TheVariants.{Labelled, Bracketed};
ghost use Rattle.sx_earley.specs.Shown.{plain, literal_texts, tokens_of, IsLiteralBelow};
ghost use Rattle.sx_earley.specs.Shown.{ShownBelow};
ghost use Rattle.sx_earley.specs.Chart.{next_symbol};
ghost use Rattle.sx_forest.specs.Useful.{level_at, IsProductionKept, MayEnd, IsMetAt, IsMet};

use crate::span_rows::symbol_count;
use sx_earley::{Shown, makes, reads, sort_of, symbol_of};
use sx_grammar::{Grammar, Head, NumberedSymbol};

/// The level from which heads of the sort are kept, 0 where none is told.
fn level_at(levels: &[u8], sort: u32) -> u8
    ensures { result ≡ level_at levels.now sort }
{
    match levels.get(sort as usize) {
        None => 0,
        Some(level) => *level,
    }
}

/// Whether the head is kept.
pub(crate) fn keeps(grammar: &Grammar, levels: &[u8], head: Head) -> bool
    ensures { IsTrue result ↔ IsProductionKept levels.now (production_of (plain grammar.now) head) }
{
    match sort_of(grammar, head) {
        None => false,
        Some(sort) => makes(grammar, head, sort, level_at(levels, sort)),
    }
}

/// Whether a part may end at the place, where this symbol comes after it; where none does, whether
/// it may be last.
fn may_end(
    grammar: &Grammar,
    shown: &[Shown],
    place: u32,
    next: Option<NumberedSymbol>,
    may_be_last: bool,
) -> bool
    requires next { IfSome next (IsLiteralBelow (length (literal_texts grammar.now))) }
    requires shown { ShownBelow (length (literal_texts grammar.now)) shown.now }
    ensures { IsTrue result ↔ MayEnd (tokens_of grammar.now shown.now)
        (option_map (symbol (literal_texts grammar.now)) next) place (IsTrue may_be_last) }
{
    match next {
        None => may_be_last,
        Some(expected) => match expected {
            NumberedSymbol::Part { sort: _, least: _ } => true,
            NumberedSymbol::Lit(_) => reads(grammar, expected, shown, place),
            NumberedSymbol::Lex(_) => reads(grammar, expected, shown, place),
        },
    }
}

/// The sort and the level of the part after the dot, if there is one that may end at the place.
fn asked_at(
    grammar: &Grammar,
    shown: &[Shown],
    place: u32,
    levels: &[u8],
    head: Head,
    dot: usize,
) -> Option<(u32, u8)>
    requires shown { ShownBelow (length (literal_texts grammar.now)) shown.now }
    ensures { (sort least : ℕ) → next_symbol (plain grammar.now) head dot
        ≡ Some (part sort least) → MayEnd (tokens_of grammar.now shown.now)
        (next_symbol (plain grammar.now) head (suc dot)) place
        (IsProductionKept levels.now (production_of (plain grammar.now) head)) →
        result ≡ Some (sort, least) }
{
    match symbol_of(grammar, head, dot) {
        Some(NumberedSymbol::Part { sort, least }) => {
            let next = symbol_of(grammar, head, dot + 1);
            if may_end(grammar, shown, place, next, keeps(grammar, levels, head)) {
                Some((sort, least))
            } else {
                None
            }
        }
        _ => None,
    }
}

/// Whether what the part after the dot asks for is kept, if it may end at the place.
fn is_met_at(
    grammar: &Grammar,
    shown: &[Shown],
    place: u32,
    levels: &[u8],
    head: Head,
    dot: usize,
) -> bool
    requires shown { ShownBelow (length (literal_texts grammar.now)) shown.now }
    ensures { IsTrue result → IsMetAt (plain grammar.now) (tokens_of grammar.now shown.now) place
        levels.now head dot }
{
    match asked_at(grammar, shown, place, levels, head, dot) {
        None => true,
        Some((sort, least)) => level_at(levels, sort) <= least,
    }
}

/// Whether it is so of each part of the head.
fn is_met_by(grammar: &Grammar, shown: &[Shown], place: u32, levels: &[u8], head: Head) -> bool
    requires shown { ShownBelow (length (literal_texts grammar.now)) shown.now }
    ensures { IsTrue result → (dot : ℕ) → IsMetAt (plain grammar.now)
        (tokens_of grammar.now shown.now) place levels.now head dot }
{
    for dot in 0..symbol_count(grammar, head) {
        if !is_met_at(grammar, shown, place, levels, head, dot) {
            return false;
        }
    }
    true
}

/// Whether it is so of each labelled production.
fn is_met_by_labelled(grammar: &Grammar, shown: &[Shown], place: u32, levels: &[u8]) -> bool
    requires shown { ShownBelow (length (literal_texts grammar.now)) shown.now }
    ensures { IsTrue result → (label dot : ℕ) → IsMetAt (plain grammar.now)
        (tokens_of grammar.now shown.now) place levels.now (Labelled label) dot }
{
    grammar.facts();
    for label in 0..grammar.productions().len() {
        if !is_met_by(grammar, shown, place, levels, Head::Labelled(label as u32)) {
            return false;
        }
    }
    true
}

/// Whether it is so of each bracket pair.
fn is_met_by_bracketed(grammar: &Grammar, shown: &[Shown], place: u32, levels: &[u8]) -> bool
    requires shown { ShownBelow (length (literal_texts grammar.now)) shown.now }
    ensures { IsTrue result → (sort dot : ℕ) → IsMetAt (plain grammar.now)
        (tokens_of grammar.now shown.now) place levels.now (Bracketed sort) dot }
{
    grammar.facts();
    for sort in 0..grammar.parts().sorts.len() {
        if !is_met_by(grammar, shown, place, levels, Head::Bracketed(sort as u32)) {
            return false;
        }
    }
    true
}

/// Whether it is so of each head.
pub(crate) fn is_met(grammar: &Grammar, shown: &[Shown], place: u32, levels: &[u8]) -> bool
    requires shown { ShownBelow (length (literal_texts grammar.now)) shown.now }
    ensures { IsTrue result → IsMet (plain grammar.now) (tokens_of grammar.now shown.now) place
        levels.now }
{
    is_met_by_labelled(grammar, shown, place, levels)
        && is_met_by_bracketed(grammar, shown, place, levels)
}

/// Keeps heads of the sort from the level on, if they are not kept.
fn lower(levels: &mut [u8], sort: u32, least: u8) {
    if let Some(level) = levels.get_mut(sort as usize) {
        if least < *level {
            *level = least;
        }
    }
}

/// Keeps what the parts of the head ask for.
fn lower_by(grammar: &Grammar, shown: &[Shown], place: u32, levels: &mut [u8], head: Head)
    requires shown { ShownBelow (length (literal_texts grammar.now)) shown.now }
{
    for dot in 0..symbol_count(grammar, head) {
        if let Some((sort, least)) = asked_at(grammar, shown, place, levels, head, dot) {
            lower(levels, sort, least);
        }
    }
}

/// Keeps what the parts of all heads ask for.
pub(crate) fn lower_all(grammar: &Grammar, shown: &[Shown], place: u32, levels: &mut [u8])
    requires shown { ShownBelow (length (literal_texts grammar.now)) shown.now }
{
    grammar.facts();
    for label in 0..grammar.productions().len() {
        lower_by(grammar, shown, place, levels, Head::Labelled(label as u32));
    }
    for sort in 0..grammar.parts().sorts.len() {
        lower_by(grammar, shown, place, levels, Head::Bracketed(sort as u32));
    }
}
