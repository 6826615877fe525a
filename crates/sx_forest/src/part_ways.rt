//! The ways to read a part, and then the symbols after it.

ghost use Rattle.std.specs.Prelude.{◌≡◌, ◌≢◌, ◌≤◌, ◌↔◌, IsTrue, length};
ghost use Rattle.sx_grammar.specs.Tally.{Tally, no_way, plus};
ghost use Rattle.sx_earley.specs.Shown.{plain};
ghost use Rattle.sx_forest.specs.Tallies.{tally_of, ways_of};
ghost use Rattle.sx_forest.specs.Rows.{FitsPart, IsEntryTally, SumTo, AreSorted};

use crate::ends::index_at;
use crate::entry::{Entry, Maker};
use crate::row::{Row, at, is_ahead};
use crate::ways::{Ways, both, either};
use sx_earley::makes;
use sx_grammar::Grammar;

/// Whether there is no way.
pub(crate) fn is_nothing(ways: Ways) -> bool
    ensures { IsTrue result ↔ (tally_of ways ≡ no_way) }
{
    matches!(ways, Ways::Nothing)
}

/// Whether there is any way.
pub(crate) fn is_some(ways: Ways) -> bool
    ensures { IsTrue result ↔ (tally_of ways ≢ no_way) }
{
    !is_nothing(ways)
}

/// Whether the maker makes the sort at least the level.
pub(crate) fn fits(grammar: &Grammar, maker: Maker, sort: u32, least: u8) -> bool
    ensures { IsTrue result ↔ FitsPart (plain grammar.now) maker sort least }
{
    match maker {
        Maker::Variable(other) => other == sort,
        Maker::By(head) => makes(grammar, head, sort, least),
    }
}

/// The ways by one entry, and then those of the row.
fn entry_ways(grammar: &Grammar, entry: Entry, sort: u32, least: u8, next: &Row) -> Ways
    ensures { IsEntryTally (plain grammar.now) sort least (ways_of next.now) entry
        (tally_of result) }
{
    let rest = at(next, entry.to);
    if is_nothing(rest) {
        return Ways::Nothing;
    }
    if fits(grammar, entry.maker, sort, least) {
        both(entry.ways, rest)
    } else {
        Ways::Nothing
    }
}

/// The ways by the entries after the first, and then those of the row. It goes from the last entry
/// that ends where the row has ways back to one that ends before them.
fn later_ways(grammar: &Grammar, entries: &[Entry], sort: u32, least: u8, next: &Row) -> Ways
    requires sorted { AreSorted entries.now }
    requires some { 1 ≤ length entries.now }
    ensures { (t : Tally) → SumTo (plain grammar.now) sort least
        (ways_of next.now) entries.now 1 t →
        SumTo (plain grammar.now) sort least (ways_of next.now) entries.now
        (length entries.now) (plus t (tally_of result)) }
{
    let mut all = Ways::Nothing;
    let mut left = index_at(entries, next.end as usize);
    while left > 1 {
        let entry = entries[left - 1];
        if is_ahead(next, entry.to) {
            return all;
        }
        let here = entry_ways(grammar, entry, sort, least, next);
        all = either(here, all);
        left -= 1;
    }
    all
}

/// The ways by the entries, and then those of the row.
pub(crate) fn part_ways(
    grammar: &Grammar,
    entries: &[Entry],
    sort: u32,
    least: u8,
    next: &Row,
) -> Ways
    requires sorted { AreSorted entries.now }
    ensures { SumTo (plain grammar.now) sort least (ways_of next.now) entries.now
        (length entries.now) (tally_of result) }
{
    if entries.is_empty() {
        return Ways::Nothing;
    }
    let first = entry_ways(grammar, entries[0], sort, least, next);
    let others = later_ways(grammar, entries, sort, least, next);
    either(first, others)
}
