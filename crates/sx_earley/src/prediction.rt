//! What an item waits for is predicted.

ghost use Rattle.std.specs.Prelude.{◌↔◌, IfOk, IfSome, IsTrue, length, option_map};
ghost use Rattle.sx_grammar.specs.Numbered.{symbol};
ghost use Rattle.sx_earley.specs.Growth.{GoesOnFrom, AllNew};
ghost use Rattle.sx_earley.specs.Shown.{plain, literal_texts, tokens_of, ShownBelow};
ghost use Rattle.sx_earley.specs.Shown.{IsLiteralBelow};
ghost use Rattle.sx_earley.specs.AskSet.{IsLevelReached, IsNewLevel};
ghost use Rattle.sx_earley.specs.Chart.{Foresees, IsPredicted, IsMissed, beginning};
ghost use Rattle.sx_earley.specs.Counted.{IsNewlyAsked, IsBusy, AllAsked, AsksMore};
ghost use Rattle.sx_earley.specs.Counted.{AddsOrCounts, Predicts};
ghost use Rattle.sx_earley.specs.Dotted.{WaitsFor};
ghost use Rattle.sx_earley.specs.Openings.{HasOpenings, HasAllOpenings};

use crate::ask::Ask;
use crate::ask_set::{AskSet, hash_of};
use crate::given::Given;
use crate::growing::add;
use crate::item_set::ItemSet;
use crate::opening::Opening;
use crate::shown::reads;
use crate::slot::Slot;
use crate::symbols::is_token;
use std::alloc::AllocError;
use sx_grammar::{Item, NumberedSymbol};

/// Whether the symbol, if there is one, is that of a token that does not stand at the place.
#[inline(always)]
fn is_missed(given: Given, first: Option<NumberedSymbol>, place: u32) -> bool
    requires first { IfSome first (IsLiteralBelow (length (literal_texts given.grammar.now))) }
    requires shown { ShownBelow (length (literal_texts given.grammar.now)) given.shown.now }
    ensures { IsTrue result ↔ IsMissed
        (tokens_of given.entry.grammar.now given.entry.shown.now)
        (option_map (symbol (literal_texts given.entry.grammar.now)) first) place }
{
    match first {
        None => false,
        Some(expected) => is_token(expected) && !reads(given.grammar, expected, given.shown, place),
    }
}

/// Whether the level is no lower than the other, if there is one.
#[inline(always)]
fn is_reached(least: Option<u8>, level: u8) -> bool
    ensures { IsTrue result ↔ IsLevelReached least level }
{
    match least {
        None => false,
        Some(least) => least <= level,
    }
}

/// Whether the level is asked for, and is none of those from this one on, which were before.
#[inline(always)]
fn is_new(level: u8, ask: Ask, before: Option<u8>) -> bool
    ensures { IsTrue result ↔ IsNewLevel ask before level }
{
    ask.least <= level && !is_reached(before, level)
}

/// Adds the item that begins the opening's production, if its level is asked for and was not
/// before, or tells that this is one that is idle.
#[inline(always)]
fn predict_opening(
    given: Given,
    found: &mut ItemSet,
    opening: Opening,
    ask: Ask,
    before: Option<u8>,
) -> Result<usize, AllocError>
    requires first { IfSome opening.first (IsLiteralBelow
        (length (literal_texts given.grammar.now))) }
    requires shown { ShownBelow (length (literal_texts given.grammar.now)) given.shown.now }
    ensures { IfOk result (AddsOrCounts (IsNewLevel ask before opening.level)
        (IsMissed (tokens_of given.entry.grammar.now given.entry.shown.now) (option_map
        (symbol (literal_texts given.entry.grammar.now)) opening.first) ask.place)
        (beginning opening.head ask.place) found.old found.new) }
{
    if !is_new(opening.level, ask, before) {
        return Ok(0);
    }
    if is_missed(given, opening.first, ask.place) {
        return Ok(1);
    }
    add(
        found,
        Item {
            head: opening.head,
            dot: 0,
            origin: ask.place,
            end: ask.place,
        },
    )?;
    Ok(0)
}

/// Predicts each production that is asked for and was not before, from this level on, where the
/// openings are those of its sort, and tells how many of the items are idle.
fn predict(
    given: Given,
    found: &mut ItemSet,
    openings: &[Opening],
    ask: Ask,
    before: Option<u8>,
) -> Result<usize, AllocError>
    requires shown { ShownBelow (length (literal_texts given.grammar.now)) given.shown.now }
    requires openings { HasOpenings given.grammar.now ask.sort openings.now }
    ensures { IfOk result (Predicts (plain given.entry.grammar.now)
        (tokens_of given.entry.grammar.now given.entry.shown.now)
        (IsNewlyAsked (plain given.entry.grammar.now) ask before) found.old found.new) }
{
    let mut idle = 0;
    for opening in openings {
        idle += predict_opening(given, found, *opening, ask, before)?;
    }
    Ok(idle)
}

/// Predicts what is asked for and was not before, and tells how many of the items are idle.
pub(crate) fn predict_once(
    given: Given,
    found: &mut ItemSet,
    asked: &mut AskSet,
    ask: Ask,
) -> Result<usize, AllocError>
    requires shown { ShownBelow (length (literal_texts given.grammar.now)) given.shown.now }
    requires openings { HasAllOpenings given.grammar.now given.openings.now }
    requires asked { AllAsked (plain given.grammar.now)
        (tokens_of given.grammar.now given.shown.now) asked.old found.old }
    ensures extends { IfOk result (λ _. GoesOnFrom found.old found.new) }
    ensures only { IfOk result (λ _. AllNew found.old found.new (IsBusy
        (plain given.entry.grammar.now) (tokens_of given.entry.grammar.now given.entry.shown.now)
        (IsPredicted (plain given.entry.grammar.now) ask.sort ask.least ask.place))) }
    ensures asked { IfOk result (λ _. AllAsked (plain given.entry.grammar.now)
        (tokens_of given.entry.grammar.now given.entry.shown.now) asked.new found.new) }
    ensures asks { IfOk result (AsksMore (plain given.entry.grammar.now)
        (tokens_of given.entry.grammar.now given.entry.shown.now)
        (IsPredicted (plain given.entry.grammar.now) ask.sort ask.least ask.place)
        asked.old asked.new) }
{
    let hash = hash_of(ask);
    let before = asked.least(ask, hash);
    if is_reached(before, ask.least) {
        return Ok(0);
    }
    let row = given.openings.row(Slot {
        place: 0,
        sort: ask.sort,
    });
    let idle = predict(given, found, row, ask, before)?;
    asked.push(ask, hash)?;
    Ok(idle)
}

/// Predicts for the part after the dot, and tells how many of the items are idle.
pub(crate) fn predict_next(
    given: Given,
    found: &mut ItemSet,
    asked: &mut AskSet,
    item: Item,
    part: Option<(u32, u8)>,
) -> Result<usize, AllocError>
    requires waits { WaitsFor (plain given.grammar.now) item part }
    requires shown { ShownBelow (length (literal_texts given.grammar.now)) given.shown.now }
    requires openings { HasAllOpenings given.grammar.now given.openings.now }
    requires asked { AllAsked (plain given.grammar.now)
        (tokens_of given.grammar.now given.shown.now) asked.old found.old }
    ensures extends { IfOk result (λ _. GoesOnFrom found.old found.new) }
    ensures only { IfOk result (λ _. AllNew found.old found.new (IsBusy
        (plain given.entry.grammar.now) (tokens_of given.entry.grammar.now given.entry.shown.now)
        (Foresees (plain given.entry.grammar.now) item))) }
    ensures asked { IfOk result (λ _. AllAsked (plain given.entry.grammar.now)
        (tokens_of given.entry.grammar.now given.entry.shown.now) asked.new found.new) }
    ensures asks { IfOk result (AsksMore (plain given.entry.grammar.now)
        (tokens_of given.entry.grammar.now given.entry.shown.now)
        (Foresees (plain given.entry.grammar.now) item) asked.old asked.new) }
{
    let Some((sort, least)) = part else {
        return Ok(0);
    };
    let ask = Ask {
        sort,
        least,
        place: item.end,
    };
    predict_once(given, found, asked, ask)
}
