//! The ways to read a symbol, and then the symbols after it.

ghost use Rattle.std.specs.Prelude.{◌≤◌, ◌<◌, Some, IfSome, length};
ghost use Rattle.std.specs.Prelude.{option_map};
ghost use Rattle.sx_grammar.specs.Numbered.{symbol};
ghost use Rattle.sx_earley.specs.Shown.{plain, literal_texts, tokens_of, IsLiteralBelow};
ghost use Rattle.sx_earley.specs.Shown.{ShownBelow};
ghost use Rattle.sx_forest.specs.Tallies.{tally_of, ways_of};
ghost use Rattle.sx_forest.specs.Rows.{AreSorted, IsPlaceRow, IsNextRow};
ghost use Rattle.sx_term.specs.Limits.{most_tokens};

use crate::entry::Entry;
use crate::part_ways::part_ways;
use crate::row::{Row, at};
use crate::ways::{Ways, both};
use sx_earley::{Shown, reads};
use sx_grammar::{Grammar, NumberedSymbol};

/// The ways to read the symbol at the place, and then those of the rest.
pub(crate) fn symbol_ways(
    grammar: &Grammar,
    shown: &[Shown],
    entries: &[Entry],
    expected: NumberedSymbol,
    rest: &Row,
    place: u32,
) -> Ways
    requires short { place ≤ most_tokens }
    requires below { IsLiteralBelow (length (literal_texts grammar.now)) expected }
    requires shown { ShownBelow (length (literal_texts grammar.now)) shown.now }
    requires sorted { AreSorted entries.now }
    ensures { IsPlaceRow (plain grammar.now) (tokens_of grammar.now shown.now) entries.now
        (symbol (literal_texts grammar.now) expected) place
        (ways_of rest.now) (tally_of result) }
{
    match expected {
        NumberedSymbol::Part { sort, least } => { part_ways(grammar, entries, sort, least, rest) }
        NumberedSymbol::Lit(_) => {
            if reads(grammar, expected, shown, place) {
                at(rest, place + 1)
            } else {
                Ways::Nothing
            }
        }
        NumberedSymbol::Lex(_) => {
            if reads(grammar, expected, shown, place) {
                both(Ways::One(1), at(rest, place + 1))
            } else {
                Ways::Nothing
            }
        }
    }
}

/// The ways to read the symbol, if there is one, at the place, and then those of the rest.
pub(crate) fn next_ways(
    grammar: &Grammar,
    shown: &[Shown],
    entries: &[Entry],
    expected: Option<NumberedSymbol>,
    rest: &Row,
    place: u32,
) -> Ways
    requires short { place ≤ most_tokens }
    requires below { IfSome expected (IsLiteralBelow (length (literal_texts grammar.now))) }
    requires shown { ShownBelow (length (literal_texts grammar.now)) shown.now }
    requires sorted { AreSorted entries.now }
    ensures { IsNextRow (plain grammar.now) (tokens_of grammar.now shown.now) entries.now
        (option_map (symbol (literal_texts grammar.now)) expected) place
        (ways_of rest.now) (tally_of result) }
{
    match expected {
        None => Ways::Nothing,
        Some(expected) => symbol_ways(grammar, shown, entries, expected, rest, place),
    }
}
