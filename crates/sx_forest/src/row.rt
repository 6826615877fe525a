//! Rows: the ways to read some symbols from each of the places of a span up to its end.

ghost use Rattle.std.specs.Prelude.{◌≡◌, ◌≤◌, ◌<◌, ◌+◌, ℕ, IsTrue, OnOk, length};
ghost use Rattle.sx_grammar.specs.Tally.{no_way};
ghost use Rattle.sx_forest.specs.Tallies.{tally_of, ways_of, IsLastRow};
ghost use Rattle.sx_term.specs.Limits.{most_tokens};

use crate::ways::Ways;
use crate::ways_list::WaysList;
use std::alloc::Global;
use sx_term::NoMemory;

/// The ways from some places that follow each other, those from the last place first; none from
/// places at the end or after it, and none from places before the first.
#[derive(Drop)]
pub(crate) struct Row {
    pub(crate) end: u32,
    pub(crate) ways: WaysList,
}

/// The row of no symbols: one way at the end of the span.
pub(crate) fn last_row(alloc: Global, to: u32) -> Row
    requires short { to ≤ most_tokens }
    ensures { IsLastRow to (ways_of result) }
{
    Row {
        end: to + 1,
        ways: WaysList::of(alloc, Ways::One(0)),
    }
}

/// The ways at a place.
pub(crate) fn at(row: &Row, place: u32) -> Ways
    ensures { tally_of result ≡ ways_of row.now place }
{
    if row.end <= place {
        return Ways::Nothing;
    }
    row.ways.numbered((row.end - 1 - place) as usize)
}

/// Whether the place is before the first that may have ways.
pub(crate) fn is_ahead(row: &Row, place: u32) -> bool
    ensures { IsTrue result → (p : ℕ) → p ≤ place → ways_of row.now p ≡ no_way }
{
    place as usize + row.ways.len() < row.end as usize
}

/// Whether the place is after the last that may have ways.
pub(crate) fn is_past(row: &Row, place: u32) -> bool
    ensures { IsTrue result → (p : ℕ) → place ≤ p → ways_of row.now p ≡ no_way }
{
    row.end <= place
}

/// The first place that may have ways; where there is none, the end.
pub(crate) fn first_place(row: &Row) -> usize
    ensures { (p : ℕ) → p < result → ways_of row.now p ≡ no_way }
{
    (row.end as usize).saturating_sub(row.ways.len())
}

/// Makes the row begin at the place: it keeps its ways from there on, and has none before.
pub(crate) fn begin_at(row: &mut Row, first: u32) -> Result<(), NoMemory>
    ensures begins { OnOk result (row.new.end ≡ first + length row.new.ways) }
    ensures kept { OnOk result ((p : ℕ) → first ≤ p → ways_of row.new p ≡ ways_of row.old p) }
{
    if row.ways.is_empty() || row.end <= first {
        row.ways.clear();
        row.end = first;
        return Ok(());
    }
    row.ways.resize((row.end - first) as usize, Ways::Nothing)?;
    Ok(())
}
