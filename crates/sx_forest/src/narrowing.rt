//! The places from which a symbol leads to where a row has ways.

ghost use Rattle.std.specs.Prelude.{◌≡◌, ◌≤◌, ◌+◌, ◌-◌, ℕ, suc, min, List, Some, slice_get};
ghost use Rattle.std.specs.Prelude.{option_map};
ghost use Rattle.sx_grammar.specs.Grammar.{Token};
ghost use Rattle.sx_grammar.specs.Numbered.{symbol};
ghost use Rattle.sx_grammar.specs.Tally.{no_way};
ghost use Rattle.sx_earley.specs.Shown.{plain, literal_texts};
ghost use Rattle.sx_forest.specs.Tallies.{ways_of};
ghost use Rattle.sx_forest.specs.Rows.{FitsPart, IsIn, IsNextRow, entries_at};
ghost use Rattle.sx_term.specs.Limits.{most_tokens};

use crate::entries::Entries;
use crate::entry::Entry;
use crate::part_ways::is_some;
use crate::row::Row;
use crate::spreading::over_reaches;
use crate::stretch::{NOWHERE, Stretch, common};
use sx_grammar::{Grammar, NumberedSymbol};

/// This number, or that after the end where it is less.
fn limited(number: usize, to: u32) -> u32
    requires { to ≤ most_tokens }
    ensures { result ≡ min number (to + 1) }
{
    if number <= to as usize {
        number as u32
    } else {
        to + 1
    }
}

/// The places, up to the end, from which a token leads to where the row may have ways.
fn before_token(next: &Row, to: u32) -> Stretch
    requires { to ≤ most_tokens }
    ensures { (place : ℕ) → place ≤ to → (IsIn result place → ⊥) →
        ways_of next.now (suc place) ≡ no_way }
{
    let first = (next.end as usize).saturating_sub(next.ways.len());
    Stretch {
        first: limited(first.saturating_sub(1), to),
        end: limited((next.end as usize).saturating_sub(1), to),
    }
}

/// The places from which fitting makers reach where the row has ways.
fn before_part(grammar: &Grammar, table: &Entries, sort: u32, least: u8, next: &Row) -> Stretch
    ensures { (place i : ℕ) (e : Entry) →
        slice_get (entries_at table.now.lists.items place) i ≡ Some e →
        FitsPart (plain grammar.now) e.maker sort least → (IsIn result place → ⊥) →
        ways_of next.now e.to ≡ no_way }
{
    let mut grown = NOWHERE;
    for number in 0..next.ways.len() {
        if is_some(next.ways.numbered(number)) {
            let reaches = table
                .starts
                .at((next.end as usize).saturating_sub(number + 1));
            grown = over_reaches(grammar, reaches, sort, least, grown);
        }
    }
    grown
}

/// The places of a span from which the symbol can lead to where the row has ways.
fn sources(
    grammar: &Grammar,
    table: &Entries,
    expected: Option<NumberedSymbol>,
    next: &Row,
    to: u32,
) -> Stretch
    requires short { to ≤ most_tokens }
    ensures { (tokens : List Token) (place : ℕ) → place ≤ to → (IsIn result place → ⊥) →
        IsNextRow (plain grammar.now) tokens (entries_at table.now.lists.items place)
        (option_map (symbol (literal_texts grammar.now)) expected) place (ways_of next.now) no_way }
{
    match expected {
        None => NOWHERE,
        Some(NumberedSymbol::Part { sort, least }) => {
            before_part(grammar, table, sort, least, next)
        }
        Some(NumberedSymbol::Lit(_)) => before_token(next, to),
        Some(NumberedSymbol::Lex(_)) => before_token(next, to),
    }
}

/// The places of the stretch from which the symbol can lead to where the row has ways. A stretch
/// that has no more places than the row stays as it is.
pub(crate) fn narrowed(
    grammar: &Grammar,
    table: &Entries,
    expected: Option<NumberedSymbol>,
    rest: &Row,
    to: u32,
    stretch: Stretch,
) -> Stretch
    requires short { to ≤ most_tokens }
    ensures kept { (place : ℕ) → IsIn result place → IsIn stretch place }
    ensures none { (tokens : List Token) (place : ℕ) → place ≤ to → IsIn stretch place →
        (IsIn result place → ⊥) →
        IsNextRow (plain grammar.now) tokens (entries_at table.now.lists.items place)
        (option_map (symbol (literal_texts grammar.now)) expected) place (ways_of rest.now) no_way }
{
    if stretch.end as usize <= stretch.first as usize + rest.ways.len() {
        return stretch;
    }
    let own = sources(grammar, table, expected, rest, to);
    common(stretch, own)
}
