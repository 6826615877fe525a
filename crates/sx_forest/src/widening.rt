//! Rows that get the places of a span that begins earlier.

ghost use Rattle.std.specs.Prelude.{◌≡◌, ◌≤◌, ◌<◌, ◌+◌, ◌-◌, suc, ℕ, IfOk, IfSome, OnOk, length};
ghost use Rattle.std.specs.Prelude.{option_map};
ghost use Rattle.sx_grammar.specs.Numbered.{symbol};
ghost use Rattle.sx_earley.specs.Chart.{next_symbol};
ghost use Rattle.sx_earley.specs.Shown.{plain, literal_texts, tokens_of, IsLiteralBelow};
ghost use Rattle.sx_earley.specs.Shown.{ShownBelow};
ghost use Rattle.sx_forest.specs.Tallies.{ways_of};
ghost use Rattle.sx_forest.specs.Rows.{AllSorted, tally_at, stretch_at, AreRows};
ghost use Rattle.sx_forest.specs.KeptRows.{symbols_by, AreStretchesKept, AreRowsReady, front_of};
ghost use Rattle.sx_forest.specs.KeptRows.{IsWider};
ghost use Rattle.sx_forest.specs.KeptRows.{AreWider, IsLonger};
ghost use Rattle.sx_term.specs.Limits.{most_tokens};

use crate::basis::Basis;
use crate::kept::{Kept, rows_of};
use crate::row::{Row, begin_at};
use crate::span_rows::{extend, row_of, symbol_count};
use crate::spreading::{spread, stretch_of};
use crate::stretch::{Stretch, clipped, joined_in_front};
use std::alloc::Global;
use std::mem;
use sx_earley::symbol_of;
use sx_grammar::NumberedSymbol;
use sx_term::NoMemory;

/// The stretches with the places that the symbols reach from an earlier beginning, where all that
/// are new are in front and join the others; otherwise None.
fn wider(
    alloc: Global,
    basis: Basis,
    kept: &Kept,
    from: u32,
) -> Result<Option<Vec<Stretch>>, NoMemory>
    requires short { kept.now.to ≤ most_tokens }
    requires along { from ≤ kept.now.to }
    requires kept { AreStretchesKept (plain basis.grammar.now)
        (tokens_of basis.grammar.now basis.shown.now) basis.table.now.lists.items kept.now }
    ensures { IfOk result (λ o. IfSome o (λ v. AreWider (plain basis.entry.grammar.now)
        (tokens_of basis.entry.grammar.now basis.entry.shown.now)
        basis.entry.table.now.lists.items kept.now.head
        (symbols_by (plain basis.entry.grammar.now) kept.now.head) from kept.now.to
        kept.now.stretches.items v.items)) }
{
    let mut all = Vec::new(alloc);
    let mut new = Stretch {
        first: from,
        end: from + 1,
    };
    all.push(new)?;
    for dot in 1..kept.rows.len() {
        let expected = symbol_of(basis.grammar, kept.head, dot - 1);
        let reached = spread(basis.grammar, basis.table, expected, new, kept.to);
        let old = stretch_of(&kept.stretches, dot);
        match joined_in_front(old, clipped(reached, 0, kept.to)) {
            None => return Ok(None),
            Some(own) => {
                new = Stretch {
                    first: own.first,
                    end: old.first,
                };
                all.push(own)?;
            }
        }
    }
    Ok(Some(all))
}

/// Adds the ways from the places to a row, in front of those that it has.
fn lengthen(
    basis: Basis,
    expected: Option<NumberedSymbol>,
    next: &Row,
    row: &mut Row,
    places: Stretch,
) -> Result<(), NoMemory>
    requires short { places.first < places.end → places.end ≤ 10001 }
    requires below { IfSome expected (IsLiteralBelow (length (literal_texts basis.grammar.now))) }
    requires shown { ShownBelow (length (literal_texts basis.grammar.now)) basis.shown.now }
    requires sorted { AllSorted basis.table.now.lists.items }
    ensures { OnOk result (IsLonger (plain basis.entry.grammar.now)
        (tokens_of basis.entry.grammar.now basis.entry.shown.now)
        basis.entry.table.now.lists.items
        (option_map (symbol (literal_texts basis.entry.grammar.now)) expected)
        (ways_of next.now) places
        row.old row.new) }
{
    if places.first < places.end {
        begin_at(row, places.end)?;
        extend(basis, expected, next, row, places)?;
    }
    Ok(())
}

/// The row that comes after the wider ones, where it is the first or this one with more places.
fn wider_row(
    basis: Basis,
    kept: &Kept,
    stretches: &[Stretch],
    wide: &[Row],
    row: Row,
) -> Result<Row, NoMemory>
    requires short { kept.now.to ≤ most_tokens }
    requires wider { (dot : ℕ) → 0 < dot →
        dot < symbols_by (plain basis.grammar.now) kept.now.head →
        IsWider kept.now.to (stretch_at kept.now.stretches.items dot)
        (stretch_at stretches.now dot) }
    requires few { length wide.now ≤ symbols_by (plain basis.grammar.now) kept.now.head - 1 }
    requires shown { ShownBelow (length (literal_texts basis.grammar.now)) basis.shown.now }
    requires sorted { AllSorted basis.table.now.lists.items }
    ensures first { length wide.now ≡ 0 → IfOk result (λ r. r ≡ row) }
    ensures more { (n : ℕ) → length wide.now ≡ suc n →
        IfOk result (IsLonger (plain basis.entry.grammar.now)
        (tokens_of basis.entry.grammar.now basis.entry.shown.now)
        basis.entry.table.now.lists.items (next_symbol (plain basis.entry.grammar.now)
        kept.now.head (symbols_by (plain basis.entry.grammar.now) kept.now.head - n - 1))
        (tally_at wide.now n) (front_of
        (stretch_at kept.now.stretches.items
        (symbols_by (plain basis.entry.grammar.now) kept.now.head - n - 1))
        (stretch_at stretches.now
        (symbols_by (plain basis.entry.grammar.now) kept.now.head - n - 1))) row) }
{
    let mut own = row;
    if wide.is_empty() {
        return Ok(own);
    }
    let dot = symbol_count(basis.grammar, kept.head) - wide.len();
    let places = Stretch {
        first: stretch_of(stretches, dot).first,
        end: stretch_of(&kept.stretches, dot).first,
    };
    let expected = symbol_of(basis.grammar, kept.head, dot);
    let next = row_of(wide, wide.len() - 1);
    lengthen(basis, expected, next, &mut own, places)?;
    Ok(own)
}

/// The rows with the places of wider stretches.
fn wider_rows(
    alloc: Global,
    basis: Basis,
    kept: &Kept,
    stretches: &[Stretch],
    rows: Vec<Row>,
) -> Result<Vec<Row>, NoMemory>
    requires short { kept.now.to ≤ most_tokens }
    requires kept { AreStretchesKept (plain basis.grammar.now)
        (tokens_of basis.grammar.now basis.shown.now) basis.table.now.lists.items
        (record {
          head = kept.now.head;
          to = kept.now.to;
          stretches = kept.now.stretches;
          rows = rows;
        }) }
    requires wider { (dot : ℕ) → 0 < dot →
        dot < symbols_by (plain basis.grammar.now) kept.now.head →
        IsWider kept.now.to (stretch_at kept.now.stretches.items dot)
        (stretch_at stretches.now dot) }
    requires shown { ShownBelow (length (literal_texts basis.grammar.now)) basis.shown.now }
    requires sorted { AllSorted basis.table.now.lists.items }
    ensures { IfOk result (λ v. AreRows (plain basis.entry.grammar.now)
        (tokens_of basis.entry.grammar.now basis.entry.shown.now)
        basis.entry.table.now.lists.items kept.now.head
        (symbols_by (plain basis.entry.grammar.now) kept.now.head)
        (symbols_by (plain basis.entry.grammar.now) kept.now.head - 1) kept.now.to stretches.now
        v.items) }
{
    let mut wide = Vec::new(alloc);
    for row in rows {
        let own = wider_row(basis, kept, stretches, &wide, row)?;
        wide.push(own)?;
    }
    Ok(wide)
}

/// Makes what is kept that of a span from an earlier beginning.
pub(crate) fn widen(alloc: Global, basis: Basis, kept: &mut Kept, from: u32) -> Result<(), NoMemory>
    requires short { kept.old.to ≤ most_tokens }
    requires along { from ≤ kept.old.to }
    requires shown { ShownBelow (length (literal_texts basis.grammar.now)) basis.shown.now }
    requires sorted { AllSorted basis.table.now.lists.items }
    requires kept { AreStretchesKept (plain basis.grammar.now)
        (tokens_of basis.grammar.now basis.shown.now) basis.table.now.lists.items kept.old }
    ensures ready { OnOk result (AreRowsReady (plain basis.entry.grammar.now)
        (tokens_of basis.entry.grammar.now basis.entry.shown.now)
        basis.entry.table.now.lists.items from kept.new) }
    ensures same { OnOk result ((kept.new.head ≡ kept.old.head) × (kept.new.to ≡ kept.old.to)) }
{
    match wider(alloc, basis, kept, from)? {
        None => {
            *kept = rows_of(alloc, basis, kept.head, from, kept.to)?;
        }
        Some(stretches) => {
            let rows = mem::replace(&mut kept.rows, Vec::new(alloc));
            kept.rows = wider_rows(alloc, basis, kept, &stretches, rows)?;
            kept.stretches = stretches;
        }
    }
    Ok(())
}
