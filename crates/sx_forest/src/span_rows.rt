//! The rows of a span.

ghost use Rattle.std.specs.Prelude.{◌≡◌, ◌≤◌, ◌<◌, ◌+◌, [], IsTrue, OnOk, IfOk, IfSome, length};
ghost use Rattle.std.specs.Prelude.{option_map};
ghost use Rattle.sx_grammar.specs.Numbered.{symbol};
ghost use Rattle.sx_grammar.specs.Grammar.{production_of};
ghost use Rattle.sx_grammar.specs.Tally.{no_way};
ghost use Rattle.sx_earley.specs.Shown.{plain, literal_texts, tokens_of, IsLiteralBelow};
ghost use Rattle.sx_earley.specs.Shown.{ShownBelow};
ghost use Rattle.sx_forest.specs.Tallies.{tally_of, ways_of};
ghost use Rattle.sx_forest.specs.Rows.{AllSorted, IsStretchRow, IsRowExtended, symbol_count};
ghost use Rattle.sx_forest.specs.Rows.{tally_at, AreRows};
ghost use Rattle.sx_forest.specs.Rows.{AreSpanRows};
ghost use Rattle.sx_term.specs.Limits.{most_tokens};

use crate::basis::Basis;
use crate::narrowing::narrowed;
use crate::part_ways::is_nothing;
use crate::row::{Row, last_row};
use crate::spreading::{stretch_of, stretches};
use crate::stretch::{Stretch, clipped};
use crate::symbol_ways::next_ways;
use crate::ways::Ways;
use crate::ways_list::WaysList;
use std::alloc::Global;
use sx_earley::{production_at, symbol_of};
use sx_grammar::{Grammar, Head, NumberedSymbol};
use sx_term::NoMemory;

/// Whether a row has no ways yet, and gets none here.
fn is_idle(ways: &WaysList, here: Ways) -> bool
    ensures { IsTrue result → (ways.now ≡ []) × (tally_of here ≡ no_way) }
{
    ways.is_empty() && is_nothing(here)
}

/// Adds the ways from the places of the stretch to a row whose places come after them.
pub(crate) fn extend(
    basis: Basis,
    expected: Option<NumberedSymbol>,
    next: &Row,
    row: &mut Row,
    places: Stretch,
) -> Result<(), NoMemory>
    requires short { places.end ≤ 10001 }
    requires below { IfSome expected (IsLiteralBelow (length (literal_texts basis.grammar.now))) }
    requires shown { ShownBelow (length (literal_texts basis.grammar.now)) basis.shown.now }
    requires sorted { AllSorted basis.table.now.lists.items }
    requires joins { row.old.end ≡ places.end + length row.old.ways }
    ensures { OnOk result (IsRowExtended (plain basis.entry.grammar.now)
        (tokens_of basis.entry.grammar.now basis.entry.shown.now)
        basis.entry.table.now.lists.items
        (option_map (symbol (literal_texts basis.entry.grammar.now)) expected)
        (ways_of next.now) places
        row.old row.new) }
{
    let mut place = places.end;
    while place > places.first {
        place -= 1;
        let entries = basis.table.from(place);
        let here = next_ways(basis.grammar, basis.shown, entries, expected, next, place);
        if is_idle(&row.ways, here) {
            row.end = place;
        } else {
            row.ways.push(here)?;
        }
    }
    Ok(())
}

/// The row before the symbol, where the next is what comes after it: the ways from those places of
/// the stretch from which the symbol leads to where the next row has any.
pub(crate) fn row_before(
    alloc: Global,
    basis: Basis,
    expected: Option<NumberedSymbol>,
    next: &Row,
    to: u32,
    stretch: Stretch,
) -> Result<Row, NoMemory>
    requires short { to ≤ most_tokens }
    requires below { IfSome expected (IsLiteralBelow (length (literal_texts basis.grammar.now))) }
    requires shown { ShownBelow (length (literal_texts basis.grammar.now)) basis.shown.now }
    requires sorted { AllSorted basis.table.now.lists.items }
    ensures { IfOk result (λ r. IsStretchRow (plain basis.entry.grammar.now)
        (tokens_of basis.entry.grammar.now basis.entry.shown.now)
        basis.entry.table.now.lists.items
        (option_map (symbol (literal_texts basis.entry.grammar.now)) expected) to stretch
        (ways_of next.entry.now) (ways_of r)) }
{
    let some = narrowed(basis.grammar, basis.table, expected, next, to, stretch);
    let places = clipped(some, 0, to);
    let mut row = Row {
        end: places.end,
        ways: WaysList::new(alloc),
    };
    extend(basis, expected, next, &mut row, places)?;
    Ok(row)
}

/// How many symbols the head's production has.
pub(crate) fn symbol_count(grammar: &Grammar, head: Head) -> usize
    ensures { result ≡ symbol_count (production_of (plain grammar.now) head) }
{
    match head {
        Head::Labelled(label) => match production_at(grammar, label) {
            None => 0,
            Some(production) => production.symbols.len(),
        },
        Head::Bracketed(sort) => match grammar.brackets(sort) {
            None => 0,
            Some(_) => 3,
        },
    }
}

/// The row at a place.
pub(crate) fn row_of(rows: &[Row], place: usize) -> &Row
    requires { place < length rows.now }
    ensures { ways_of result.now ≡ tally_at rows.now place }
{
    &rows[place]
}

/// The first rows of a span: that after all symbols of the head, and so many before it, where the
/// symbols can begin in these stretches.
pub(crate) fn last_rows(
    alloc: Global,
    basis: Basis,
    head: Head,
    stretches: &[Stretch],
    number: usize,
    to: u32,
) -> Result<Vec<Row>, NoMemory>
    requires short { to ≤ most_tokens }
    requires shown { ShownBelow (length (literal_texts basis.grammar.now)) basis.shown.now }
    requires sorted { AllSorted basis.table.now.lists.items }
    requires few { number ≤ symbol_count (production_of (plain basis.grammar.now) head) }
    ensures { IfOk result (λ v. AreRows (plain basis.entry.grammar.now)
        (tokens_of basis.entry.grammar.now basis.entry.shown.now)
        basis.entry.table.now.lists.items head
        (symbol_count (production_of (plain basis.entry.grammar.now) head)) number to stretches.now
        v.items) }
{
    let count = symbol_count(basis.grammar, head);
    let mut rows = Vec::new(alloc);
    rows.push(last_row(alloc, to))?;
    for done in 0..number {
        let dot = count - done - 1;
        let expected = symbol_of(basis.grammar, head, dot);
        let stretch = stretch_of(stretches, dot);
        let next = row_of(&rows, done);
        let row = row_before(alloc, basis, expected, next, to, stretch)?;
        rows.push(row)?;
    }
    Ok(rows)
}

/// The rows of a span, from that after all symbols of the head to that before all.
pub(crate) fn all_rows(
    alloc: Global,
    basis: Basis,
    head: Head,
    from: u32,
    to: u32,
) -> Result<Vec<Row>, NoMemory>
    requires short { to ≤ most_tokens }
    requires along { from ≤ to }
    requires shown { ShownBelow (length (literal_texts basis.grammar.now)) basis.shown.now }
    requires sorted { AllSorted basis.table.now.lists.items }
    ensures { IfOk result (λ v. AreSpanRows (plain basis.entry.grammar.now)
        (tokens_of basis.entry.grammar.now basis.entry.shown.now)
        basis.entry.table.now.lists.items head from to v.items) }
{
    let count = symbol_count(basis.grammar, head);
    let stretches = stretches(alloc, basis, head, count, from, to)?;
    last_rows(alloc, basis, head, &stretches, count, to)
}
