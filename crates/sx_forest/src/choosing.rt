//! The entries by which readings go over a part.

ghost use Rattle.std.specs.Prelude.{◌≡◌, ◌≤◌, ◌<◌, ◌+◌, ◌↔◌, IsTrue, Some, length, slice_get};
ghost use Rattle.sx_earley.specs.Shown.{plain};
ghost use Rattle.sx_forest.specs.Tallies.{tally_of, ways_of};
ghost use Rattle.sx_forest.specs.Rows.{AreSorted};
ghost use Rattle.sx_forest.specs.Forests.{IsMore, IsUsableEntry, IsFirstUsable, IsForkOf};

use crate::choice::Choice;
use crate::ends::index_at;
use crate::entry::Entry;
use crate::fork::Fork;
use crate::part_ways::{fits, is_some};
use crate::row::{at, first_place, is_past};
use crate::ways::{Ways, both};

/// Whether there is more than one way.
pub(crate) fn is_more(ways: Ways) -> bool
    ensures { IsTrue result ↔ IsMore (tally_of ways) }
{
    matches!(ways, Ways::More(_))
}

/// Whether the entry reads the part, and the row the rest.
fn is_usable(choice: Choice, entry: Entry) -> bool
    ensures { IsTrue result ↔ IsUsableEntry (plain choice.entry.grammar.now) choice.entry.sort
        choice.entry.least (ways_of choice.entry.rest.now) entry }
{
    is_some(both(entry.ways, at(choice.rest, entry.to)))
        && fits(choice.grammar, entry.maker, choice.sort, choice.least)
}

/// The first entry from an index on, after the first of all, that reads the part where the row
/// reads the rest, with its index. It looks at those alone that end where the row may have ways.
fn later_usable(choice: Choice, first: usize) -> Option<(usize, Entry)>
    requires sorted { AreSorted choice.entries.now }
    requires some { 1 ≤ length choice.entries.now }
    requires later { 1 ≤ first }
    ensures { IsFirstUsable (plain choice.entry.grammar.now) choice.entry.sort choice.entry.least
        (ways_of choice.entry.rest.now) choice.entry.entries.now first
        result }
{
    let entries = choice.entries;
    let met = index_at(entries, first_place(choice.rest));
    let start = if first < met { met } else { first };
    for index in start..entries.len() {
        let entry = entries[index];
        if is_past(choice.rest, entry.to) {
            return None;
        }
        if is_usable(choice, entry) {
            return Some((index, entry));
        }
    }
    None
}

/// The first entry from an index on that reads the part where the row reads the rest, with its
/// index.
pub(crate) fn first_usable(choice: Choice, first: usize) -> Option<(usize, Entry)>
    requires sorted { AreSorted choice.entries.now }
    ensures { IsFirstUsable (plain choice.entry.grammar.now) choice.entry.sort choice.entry.least
        (ways_of choice.entry.rest.now) choice.entry.entries.now first
        result }
{
    let entries = choice.entries;
    if entries.is_empty() {
        return None;
    }
    if first > 0 {
        return later_usable(choice, first);
    }
    let entry = entries[0];
    if is_usable(choice, entry) {
        return Some((0, entry));
    }
    later_usable(choice, 1)
}

/// How two readings part at a part, where this entry is the first usable one and has this index, or
/// None where they do not.
pub(crate) fn fork_of(choice: Choice, index: usize, entry: Entry) -> Option<Fork>
    requires sorted { AreSorted choice.entries.now }
    requires at { slice_get choice.entries.now index ≡ Some entry }
    ensures { IsForkOf (plain choice.entry.grammar.now) choice.entry.sort choice.entry.least
        (ways_of choice.entry.rest.now) choice.entry.entries.now index
        entry result }
{
    match first_usable(choice, index + 1) {
        Some((_, other)) => Some(Fork::Apart(entry, other)),
        None => {
            if is_more(entry.ways) {
                Some(Fork::Inside(entry))
            } else {
                None
            }
        }
    }
}
