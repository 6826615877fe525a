//! All items that hold.

ghost use Rattle.std.specs.Prelude.{◌≡◌, ◌≤◌, ◌<◌, ◌+◌, ◌↔◌, [], OnOk, IfOk, IsTrue, Err, length};
ghost use Rattle.sx_grammar.specs.ReadOne.{MoreHold};
ghost use Rattle.sx_grammar.specs.Tally.{EachOnce};
ghost use Rattle.sx_earley.specs.Shown.{plain, literal_texts, tokens_of, ShownBelow};
ghost use Rattle.sx_earley.specs.Counted.{AreItems};
ghost use Rattle.sx_earley.specs.Openings.{HasAllOpenings};
ghost use Rattle.sx_grammar.specs.ReadOne.{most_items};
ghost use Rattle.sx_term.specs.Limits.{most_tokens};

use crate::ask::Ask;
use crate::chart_error::ChartError;
use crate::dotted::Dotted;
use crate::filed::{before_key, filling_key, own_key};
use crate::given::Given;
use crate::growing::treat;
use crate::item_set::ItemSet;
use crate::neighbours::Neighbours;
use crate::notes::Notes;
use crate::prediction::predict_once;
use crate::symbols::{part_of, sort_made, symbol_of};
use std::alloc::Global;

/// How many items may hold.
const MOST_ITEMS: usize = 2_000_000;

/// Whether the items and so many more are too many.
fn are_too_many(found: &ItemSet, idle: usize) -> bool
    ensures many { IsTrue result ↔ (most_items < length found.now + idle) }
    ensures once { EachOnce found.now }
{
    let kept = found.len();
    idle > MOST_ITEMS || kept > MOST_ITEMS - idle
}

/// Adds all items that hold, but for idle ones, to none, or finds that they are too many with
/// those.
fn collect(
    given: Given,
    start: u32,
    notes: &mut Notes,
    found: &mut ItemSet,
) -> Result<(), ChartError>
    requires short { length given.shown.now ≤ most_tokens }
    requires below { ShownBelow (length (literal_texts given.grammar.now)) given.shown.now }
    requires openings { HasAllOpenings given.grammar.now given.openings.now }
    requires asked { notes.old.asked ≡ [] }
    requires keys { notes.old.filed.keys ≡ [] }
    requires numbers { notes.old.filed.numbers.items ≡ [] }
    requires none { found.old ≡ [] }
    ensures all { OnOk result (AreItems (plain given.entry.grammar.now)
        (tokens_of given.entry.grammar.now given.entry.shown.now) start found.new) }
    ensures few { OnOk result (MoreHold (plain given.entry.grammar.now)
        (tokens_of given.entry.grammar.now given.entry.shown.now) start most_items → ⊥) }
    ensures hard { result ≡ Err ChartError.TooHard → MoreHold (plain given.entry.grammar.now)
        (tokens_of given.entry.grammar.now given.entry.shown.now) start most_items }
{
    let first = Ask {
        sort: start,
        least: 0,
        place: 0,
    };
    let mut idle = predict_once(given, found, &mut notes.asked, first)?;
    if are_too_many(found, idle) {
        return Err(ChartError::TooHard);
    }
    let mut next = 0;
    while let Some(item) = found.get(next) {
        let symbol = symbol_of(given.grammar, item.head, item.dot);
        let part = part_of(symbol);
        let made = sort_made(given.grammar, item, symbol);
        let own = own_key(item, part, made);
        notes.filed.file(own, next as u32)?;
        let near = Neighbours {
            filed: &notes.filed,
            before: before_key(item, made),
            filling: filling_key(item, part),
        };
        let here = Dotted { item, symbol };
        idle += treat(given, found, &mut notes.hints, &mut notes.asked, near, here)?;
        if are_too_many(found, idle) {
            return Err(ChartError::TooHard);
        }
        next += 1;
    }
    Ok(())
}

/// All items that hold, but for idle ones, or that they are too many with those.
pub(crate) fn all_items(alloc: Global, given: Given, start: u32) -> Result<ItemSet, ChartError>
    requires short { length given.shown.now ≤ most_tokens }
    requires below { ShownBelow (length (literal_texts given.grammar.now)) given.shown.now }
    requires openings { HasAllOpenings given.grammar.now given.openings.now }
    ensures all { IfOk result (AreItems (plain given.entry.grammar.now)
        (tokens_of given.entry.grammar.now given.entry.shown.now) start) }
    ensures few { IfOk result (λ _. MoreHold (plain given.entry.grammar.now)
        (tokens_of given.entry.grammar.now given.entry.shown.now) start most_items → ⊥) }
    ensures hard { result ≡ Err ChartError.TooHard → MoreHold (plain given.entry.grammar.now)
        (tokens_of given.entry.grammar.now given.entry.shown.now) start most_items }
{
    let mut notes = Notes::new(alloc, given.shown.len() + 1)?;
    let mut found = ItemSet::new(alloc);
    let collected = collect(given, start, &mut notes, &mut found);
    drop(notes);
    match collected {
        Ok(()) => Ok(found),
        Err(error) => {
            drop(found);
            Err(error)
        }
    }
}
