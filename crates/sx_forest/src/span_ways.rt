//! The ways of spans, by rows that are kept.

ghost use Rattle.std.specs.Prelude.{◌≡◌, ◌≤◌, ◌<◌, ℕ, IsTrue, IsFalse, Some, IfOk, IfSome};
ghost use Rattle.std.specs.Prelude.{length, slice_get};
ghost use Rattle.sx_grammar.specs.Grammar.{production_of};
ghost use Rattle.sx_earley.specs.Shown.{plain, literal_texts, tokens_of, ShownBelow};
ghost use Rattle.sx_forest.specs.declared.kept.Kept.{Kept};
ghost use Rattle.sx_forest.specs.Tallies.{tally_of, ways_of};
ghost use Rattle.sx_forest.specs.Rows.{AllSorted, IsIn, IsSpanWays, IsFirstWays, stretch_at};
ghost use Rattle.sx_forest.specs.Rows.{symbol_count};
ghost use Rattle.sx_forest.specs.KeptRows.{AreStretchesKept, AllKept, AreRowsReady, IsClear};
ghost use Rattle.sx_term.specs.Limits.{most_tokens};

use crate::basis::Basis;
use crate::kept::{Kept, rows_of};
use crate::row::{Row, at, last_row};
use crate::span_rows::{row_of, symbol_count};
use crate::symbol_ways::symbol_ways;
use crate::ways::{Ways, inside};
use crate::widening::widen;
use std::alloc::Global;
use sx_earley::symbol_of;
use sx_grammar::Head;
use sx_term::NoMemory;

/// For how many heads rows are kept at most.
const MOST_KEPT: usize = 16;

/// The index of what is kept for the head up to the end.
fn index_of(kept: &[Kept], head: Head, to: u32) -> Option<usize>
    ensures { IfSome result (λ i. (k : Kept) × (slice_get kept.now i ≡ Some k) ×
        (k.head ≡ head) × (k.to ≡ to)) }
{
    for index in 0..kept.len() {
        if kept[index].head == head && kept[index].to == to {
            return Some(index);
        }
    }
    None
}

/// Whether all is kept up to this end, and there may be more.
fn has_room(kept: &[Kept], to: u32) -> bool {
    match kept.first() {
        None => true,
        Some(one) => one.to == to && kept.len() < MOST_KEPT,
    }
}

/// Whether a symbol after the first can begin at the place.
fn has_place(kept: &Kept, place: u32) -> bool
    ensures { (dot : ℕ) → 0 < dot → IsIn (stretch_at kept.now.stretches.items dot) place →
        IsTrue result }
{
    for dot in 1..kept.stretches.len() {
        let stretch = kept.stretches[dot];
        if stretch.first <= place && place < stretch.end {
            return true;
        }
    }
    false
}

/// Whether one of them has the place.
fn have_place(kept: &[Kept], place: u32) -> bool
    ensures { (i : ℕ) (k : Kept) → slice_get kept.now i ≡ Some k → IsFalse result →
        IsClear place k }
{
    for index in 0..kept.len() {
        if has_place(&kept[index], place) {
            return true;
        }
    }
    false
}

/// Drops all where one has the place.
pub(crate) fn leave(kept: &mut Vec<Kept>, place: u32)
    ensures { (i : ℕ) (k : Kept) → slice_get kept.new.items i ≡ Some k →
        (slice_get kept.old.items i ≡ Some k) × IsClear place k }
{
    if have_place(kept, place) {
        kept.clear();
    }
}

/// The ways by the first symbol of the head, if it has one, and then those of the row.
fn first_ways(basis: Basis, head: Head, next: &Row, from: u32) -> Ways
    requires short { from ≤ most_tokens }
    requires shown { ShownBelow (length (literal_texts basis.grammar.now)) basis.shown.now }
    requires sorted { AllSorted basis.table.now.lists.items }
    ensures { IsFirstWays (plain basis.entry.grammar.now)
        (tokens_of basis.entry.grammar.now basis.entry.shown.now)
        basis.entry.table.now.lists.items head from (ways_of next.entry.now)
        (tally_of result) }
{
    match symbol_of(basis.grammar, head, 0) {
        None => inside(at(next, from)),
        Some(expected) => {
            let entries = basis.table.from(from);
            let ways = symbol_ways(basis.grammar, basis.shown, entries, expected, next, from);
            inside(ways)
        }
    }
}

/// The ways of a span whose head has one symbol at most.
fn leaf_ways(alloc: Global, basis: Basis, head: Head, from: u32, to: u32) -> Ways
    requires short { to ≤ most_tokens }
    requires along { from ≤ to }
    requires leaf { symbol_count (production_of (plain basis.grammar.now) head) ≤ 1 }
    requires shown { ShownBelow (length (literal_texts basis.grammar.now)) basis.shown.now }
    requires sorted { AllSorted basis.table.now.lists.items }
    ensures { IsSpanWays (plain basis.entry.grammar.now)
        (tokens_of basis.entry.grammar.now basis.entry.shown.now)
        basis.entry.table.now.lists.items head from to (tally_of result) }
{
    let row = last_row(alloc, to);
    first_ways(basis, head, &row, from)
}

/// The ways of a span by the rows that are kept of it.
fn kept_ways(basis: Basis, kept: &Kept, from: u32) -> Ways
    requires short { kept.now.to ≤ most_tokens }
    requires along { from ≤ kept.now.to }
    requires shown { ShownBelow (length (literal_texts basis.grammar.now)) basis.shown.now }
    requires sorted { AllSorted basis.table.now.lists.items }
    requires ready { AreRowsReady (plain basis.grammar.now)
        (tokens_of basis.grammar.now basis.shown.now) basis.table.now.lists.items from
        kept.now }
    ensures { IsSpanWays (plain basis.entry.grammar.now)
        (tokens_of basis.entry.grammar.now basis.entry.shown.now)
        basis.entry.table.now.lists.items kept.now.head from kept.now.to (tally_of result) }
{
    let next = row_of(&kept.rows, kept.rows.len() - 1);
    first_ways(basis, kept.head, next, from)
}

/// The ways of a span from an earlier beginning, whose rows are kept in place of these.
fn wider_ways(alloc: Global, basis: Basis, kept: &mut Kept, from: u32) -> Result<Ways, NoMemory>
    requires short { kept.old.to ≤ most_tokens }
    requires along { from ≤ kept.old.to }
    requires shown { ShownBelow (length (literal_texts basis.grammar.now)) basis.shown.now }
    requires sorted { AllSorted basis.table.now.lists.items }
    requires kept { AreStretchesKept (plain basis.grammar.now)
        (tokens_of basis.grammar.now basis.shown.now) basis.table.now.lists.items kept.old }
    ensures kept { IfOk result (λ _. AreStretchesKept (plain basis.entry.grammar.now)
        (tokens_of basis.entry.grammar.now basis.entry.shown.now)
        basis.entry.table.now.lists.items kept.new) }
    ensures ways { IfOk result (λ w. IsSpanWays (plain basis.entry.grammar.now)
        (tokens_of basis.entry.grammar.now basis.entry.shown.now)
        basis.entry.table.now.lists.items kept.old.head from kept.old.to (tally_of w)) }
{
    widen(alloc, basis, kept, from)?;
    let ways = kept_ways(basis, kept, from);
    Ok(ways)
}

/// The ways of a span, by the rows of the span of the head before it, which ends there too, or by
/// rows that are made anew. They are kept, where the head has more than one symbol.
pub(crate) fn span_ways(
    alloc: Global,
    basis: Basis,
    kept: &mut Vec<Kept>,
    head: Head,
    from: u32,
    to: u32,
) -> Result<Ways, NoMemory>
    requires short { to ≤ most_tokens }
    requires along { from ≤ to }
    requires shown { ShownBelow (length (literal_texts basis.grammar.now)) basis.shown.now }
    requires sorted { AllSorted basis.table.now.lists.items }
    requires kept { AllKept (plain basis.grammar.now)
        (tokens_of basis.grammar.now basis.shown.now) basis.table.now.lists.items
        kept.old.items }
    ensures kept { IfOk result (λ _. AllKept (plain basis.entry.grammar.now)
        (tokens_of basis.entry.grammar.now basis.entry.shown.now)
        basis.entry.table.now.lists.items kept.new.items) }
    ensures ways { IfOk result (λ w. IsSpanWays (plain basis.entry.grammar.now)
        (tokens_of basis.entry.grammar.now basis.entry.shown.now)
        basis.entry.table.now.lists.items head from to (tally_of w)) }
{
    if symbol_count(basis.grammar, head) <= 1 {
        return Ok(leaf_ways(alloc, basis, head, from, to));
    }
    match index_of(kept, head, to) {
        Some(index) => {
            let ways = wider_ways(alloc, basis, &mut kept[index], from)?;
            Ok(ways)
        }
        None => {
            if !has_room(kept, to) {
                kept.clear();
            }
            let own = rows_of(alloc, basis, head, from, to)?;
            let ways = kept_ways(basis, &own, from);
            kept.push(own)?;
            Ok(ways)
        }
    }
}
