//! What follows from one item.

ghost use Rattle.std.specs.Prelude.{◌≡◌, ◌+◌, ◌≤◌, OnOk, IfOk, Contains};
ghost use Rattle.std.specs.Prelude.{length, IsTrue, IfSome};
ghost use Rattle.sx_earley.specs.Growth.{GoesOnFrom, AllNew};
ghost use Rattle.sx_earley.specs.Shown.{plain, literal_texts, tokens_of, ShownBelow};
ghost use Rattle.sx_earley.specs.Chart.{FollowsFrom, Foresees};
ghost use Rattle.sx_earley.specs.Chart.{AllFollow, Joins, IsJoined, moved};
ghost use Rattle.sx_earley.specs.Chart.{next_symbol, ReadsNext};
ghost use Rattle.sx_earley.specs.Counted.{AllAsked, AsksMore};
ghost use Rattle.sx_earley.specs.Dotted.{IsNextSymbol, WaitsFor, HasEnded};
ghost use Rattle.sx_earley.specs.Keys.{AreNumbersWithin, IsKeyed};
ghost use Rattle.sx_earley.specs.Openings.{HasAllOpenings};
ghost use Rattle.sx_term.specs.Limits.{most_tokens};

use crate::ask_set::AskSet;
use crate::dotted::Dotted;
use crate::given::Given;
use crate::hints::Hints;
use crate::item_set::ItemSet;
use crate::neighbours::Neighbours;
use crate::prediction::predict_next;
use crate::shown::{Shown, reads};
use crate::spanned::item_within;
use crate::symbols::{ends_at, makes, next_part, part_of};
use std::alloc::AllocError;
use sx_grammar::{Grammar, Item};

/// Adds the item, if it is not there.
#[inline(always)]
pub(crate) fn add(found: &mut ItemSet, item: Item) -> Result<(), AllocError>
    ensures added { OnOk result (Contains found.new item) }
    ensures extends { GoesOnFrom found.old found.new }
    ensures only { AllNew found.old found.new (λ i. i ≡ item) }
{
    found.add(item)
}

/// Whether hints tell that the dot of the first item was moved over the second.
#[inline(always)]
fn is_known(found: &ItemSet, hints: &Hints, before: Item, filling: Item) -> bool
    ensures { IsTrue result → Contains found.now (moved before filling.end) }
{
    before.dot < usize::MAX
        && hints.is_right(
            found,
            Item {
                head: before.head,
                dot: before.dot + 1,
                origin: before.origin,
                end: filling.end,
            },
        )
}

/// Adds the item, if it is not there, and notes its place.
fn add_noted(found: &mut ItemSet, hints: &mut Hints, item: Item) -> Result<(), AllocError>
    ensures added { OnOk result (Contains found.new item) }
    ensures extends { GoesOnFrom found.old found.new }
    ensures only { AllNew found.old found.new (λ i. i ≡ item) }
{
    let place = found.len();
    add(found, item)?;
    if place < found.len() {
        hints.note(item, place);
    }
    Ok(())
}

/// Moves the dot of the first item, which waits for this part, over the second, which is complete,
/// if that is one.
fn join_complete(
    grammar: &Grammar,
    found: &mut ItemSet,
    hints: &mut Hints,
    before: Item,
    part: Option<(u32, u8)>,
    filling: Item,
) -> Result<(), AllocError>
    requires waits { WaitsFor (plain grammar.now) before part }
    requires complete { HasEnded (plain grammar.now) filling }
    ensures extends { GoesOnFrom found.old found.new }
    ensures only { AllNew found.old found.new
        (λ i. Joins (plain grammar.now) before filling × (i ≡ moved before filling.end)) }
    ensures every { OnOk result (Joins (plain grammar.now) before filling →
        Contains found.new (moved before filling.end)) }
{
    match part {
        None => Ok(()),
        Some((sort, least)) => {
            if before.end == filling.origin && makes(grammar, filling.head, sort, least) {
                add_noted(
                    found,
                    hints,
                    Item {
                        head: before.head,
                        dot: before.dot + 1,
                        origin: before.origin,
                        end: filling.end,
                    },
                )
            } else {
                Ok(())
            }
        }
    }
}

/// Moves the dot of the first item, which waits for this part, over the second, if that is one.
fn join(
    grammar: &Grammar,
    found: &mut ItemSet,
    hints: &mut Hints,
    before: Item,
    part: Option<(u32, u8)>,
    filling: Item,
) -> Result<(), AllocError>
    requires waits { WaitsFor (plain grammar.now) before part }
    ensures extends { GoesOnFrom found.old found.new }
    ensures only { AllNew found.old found.new
        (λ i. Joins (plain grammar.now) before filling × (i ≡ moved before filling.end)) }
    ensures every { OnOk result (Joins (plain grammar.now) before filling →
        Contains found.new (moved before filling.end)) }
{
    if ends_at(grammar, filling.head, filling.dot) {
        join_complete(grammar, found, hints, before, part, filling)
    } else {
        Ok(())
    }
}

/// Moves the dot of each of the items that may wait for the item over it, if it waits for it.
fn join_each(
    grammar: &Grammar,
    found: &mut ItemSet,
    hints: &mut Hints,
    near: Neighbours,
    filling: Item,
) -> Result<(), AllocError>
    requires within { AreNumbersWithin near.filed.now (length found.old) }
    requires complete { IfSome near.before (λ _. HasEnded (plain grammar.now) filling) }
    ensures extends { GoesOnFrom found.old found.new }
    ensures only { AllNew found.old found.new (IsJoined (plain grammar.now)
        (IsKeyed found.old near.entry.filed.now near.entry.before) (λ x. x ≡ filling)) }
    ensures every { OnOk result ((before : Item) →
        IsKeyed found.old near.entry.filed.now near.entry.before before →
        Joins (plain grammar.now) before filling →
        Contains found.new (moved before filling.end)) }
{
    let Some(key) = near.before else {
        return Ok(());
    };
    let mut here = near.filed.keys.last(key);
    while let Some(place) = here {
        let before = item_within(found, near.filed.number(place) as usize);
        here = near.filed.keys.before(place);
        if is_known(found, hints, before, filling) {
            continue;
        }
        let part = next_part(grammar, before.head, before.dot);
        join_complete(grammar, found, hints, before, part, filling)?;
    }
    Ok(())
}

/// Moves the dot of the item, which waits for this part, over each of those for which it may wait,
/// if it waits for it.
fn join_over(
    grammar: &Grammar,
    found: &mut ItemSet,
    hints: &mut Hints,
    near: Neighbours,
    before: Item,
    part: Option<(u32, u8)>,
) -> Result<(), AllocError>
    requires within { AreNumbersWithin near.filed.now (length found.old) }
    requires waits { WaitsFor (plain grammar.now) before part }
    ensures extends { GoesOnFrom found.old found.new }
    ensures only { AllNew found.old found.new (IsJoined (plain grammar.now) (λ x. x ≡ before)
        (IsKeyed found.old near.entry.filed.now near.entry.filling)) }
    ensures every { OnOk result ((filling : Item) →
        IsKeyed found.old near.entry.filed.now near.entry.filling filling →
        Joins (plain grammar.now) before filling →
        Contains found.new (moved before filling.end)) }
{
    let Some(key) = near.filling else {
        return Ok(());
    };
    let mut here = near.filed.keys.last(key);
    while let Some(place) = here {
        let filling = item_within(found, near.filed.number(place) as usize);
        here = near.filed.keys.before(place);
        if is_known(found, hints, before, filling) {
            continue;
        }
        join(grammar, found, hints, before, part, filling)?;
    }
    Ok(())
}

/// Moves the dot of the item over the next token, if its symbol reads it.
fn scan(
    grammar: &Grammar,
    shown: &[Shown],
    found: &mut ItemSet,
    dotted: Dotted,
) -> Result<(), AllocError>
    requires next { IsNextSymbol grammar.now dotted.item dotted.symbol }
    requires short { length shown.now ≤ most_tokens }
    requires below { ShownBelow (length (literal_texts grammar.now)) shown.now }
    ensures extends { GoesOnFrom found.old found.new }
    ensures only { AllNew found.old found.new
        (λ i. ReadsNext (tokens_of grammar.now shown.now)
        (next_symbol (plain grammar.now) dotted.item.head dotted.item.dot) dotted.item.end ×
        (i ≡ moved dotted.item (dotted.item.end + 1))) }
    ensures every { OnOk result (ReadsNext (tokens_of grammar.now shown.now)
        (next_symbol (plain grammar.now) dotted.item.head dotted.item.dot) dotted.item.end →
        Contains found.new (moved dotted.item (dotted.item.end + 1))) }
{
    let item = dotted.item;
    let Some(expected) = dotted.symbol else {
        return Ok(());
    };
    if reads(grammar, expected, shown, item.end) {
        add(
            found,
            Item {
                head: item.head,
                dot: item.dot + 1,
                origin: item.origin,
                end: item.end + 1,
            },
        )
    } else {
        Ok(())
    }
}

/// Adds all that follows from the item, where these are the items that it may meet, and tells how
/// many more items are idle.
pub(crate) fn treat(
    given: Given,
    found: &mut ItemSet,
    hints: &mut Hints,
    asked: &mut AskSet,
    near: Neighbours,
    dotted: Dotted,
) -> Result<usize, AllocError>
    requires next { IsNextSymbol given.grammar.now dotted.item dotted.symbol }
    requires short { length given.shown.now ≤ most_tokens }
    requires below { ShownBelow (length (literal_texts given.grammar.now)) given.shown.now }
    requires openings { HasAllOpenings given.grammar.now given.openings.now }
    requires asked { AllAsked (plain given.grammar.now)
        (tokens_of given.grammar.now given.shown.now) asked.old found.old }
    requires within { AreNumbersWithin near.filed.now (length found.old) }
    requires complete { IfSome near.before
        (λ _. HasEnded (plain given.grammar.now) dotted.item) }
    ensures extends { IfOk result (λ _. GoesOnFrom found.old found.new) }
    ensures only { IfOk result (λ _. AllNew found.old found.new
        (FollowsFrom (plain given.entry.grammar.now)
        (tokens_of given.entry.grammar.now given.entry.shown.now)
        (IsKeyed found.old near.entry.filed.now near.entry.before)
        (IsKeyed found.old near.entry.filed.now near.entry.filling) dotted.item)) }
    ensures every { IfOk result (λ _. AllFollow (plain given.entry.grammar.now)
        (tokens_of given.entry.grammar.now given.entry.shown.now)
        (IsKeyed found.old near.entry.filed.now near.entry.before)
        (IsKeyed found.old near.entry.filed.now near.entry.filling) dotted.item asked.new
        found.new) }
    ensures asked { IfOk result (λ _. AllAsked (plain given.entry.grammar.now)
        (tokens_of given.entry.grammar.now given.entry.shown.now) asked.new found.new) }
    ensures asks { IfOk result (AsksMore (plain given.entry.grammar.now)
        (tokens_of given.entry.grammar.now given.entry.shown.now)
        (Foresees (plain given.entry.grammar.now) dotted.item) asked.old asked.new) }
{
    let item = dotted.item;
    let part = part_of(dotted.symbol);
    let idle = predict_next(given, found, asked, item, part)?;
    scan(given.grammar, given.shown, found, dotted)?;
    join_each(given.grammar, found, hints, near, item)?;
    join_over(given.grammar, found, hints, near, item, part)?;
    Ok(idle)
}
