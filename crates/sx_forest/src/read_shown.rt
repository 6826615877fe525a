//! Reading what is shown.

ghost use Rattle.std.specs.Prelude.{◌≤◌, List, ℕ, IfOk, IfErr, length};
ghost use Rattle.sx_grammar.specs.Order.{IsRanking, rank_at};
ghost use Rattle.sx_grammar.specs.Tally.{EachOnce};
ghost use Rattle.sx_grammar.specs.Reading as plain;
ghost use Rattle.sx_grammar.specs.Reading.{ReadsWhole};
ghost use Rattle.sx_grammar.specs.ReadOne.{MoreHold};
ghost use Rattle.sx_earley.specs.Shown.{plain, literal_texts, tokens_of, ShownBelow};
ghost use Rattle.sx_earley.specs.Completed.{IsChart};
ghost use Rattle.sx_forest.specs.Verdict.{IsFound, IsReadRefusal};
ghost use Rattle.sx_grammar.specs.ReadOne.{most_items};
ghost use Rattle.sx_term.specs.Limits.{most_tokens};

use crate::all_tokens::{first_reading, two_readings};
use crate::completing::has_reading;
use crate::forest::Forest;
use crate::found::Found;
use crate::full::fill;
use crate::judge::{judge, whole_ways};
use crate::judged::Judged;
use crate::read_error::ReadError;
use crate::row::last_row;
use std::alloc::Global;
use sx_earley::{ReadyGrammar, Shown, Span, chart_of};
use sx_grammar::Grammar;

/// The only reading of what is shown, or two of more, where there is one and the spans are those
/// that the items complete.
fn read_spans(
    alloc: Global,
    grammar: &Grammar,
    ranks: &[u32],
    start: u32,
    shown: &[Shown],
    spans: &[Span],
) -> Result<Found, ReadError>
    requires short { length shown.now ≤ most_tokens }
    requires below { ShownBelow (length (literal_texts grammar.now)) shown.now }
    requires ranking { IsRanking (plain grammar.now) (rank_at ranks.now) }
    requires chart { IsChart (plain grammar.now) (tokens_of grammar.now shown.now) start spans.now }
    requires once { EachOnce spans.now }
    requires few { MoreHold (plain grammar.now) (tokens_of grammar.now shown.now) start most_items →
        ⊥ }
    requires some { (r : plain.Reading) × ReadsWhole (plain grammar.now)
        (tokens_of grammar.now shown.now) start r }
    ensures found { IfOk result (IsFound (plain grammar.now)
        (tokens_of grammar.now shown.now) start) }
    ensures refused { IfErr result (λ e. (labels texts : List (List ℕ)) →
        IsReadRefusal labels texts (plain grammar.now) (tokens_of grammar.now shown.now) start e) }
{
    grammar.facts();
    let table = fill(alloc, grammar, ranks, start, shown, spans)?;
    let count = shown.len() as u32;
    let row = last_row(alloc, count);
    let ways = whole_ways(alloc, grammar, start, count, &table);
    let forest = Forest {
        grammar,
        shown,
        table: &table,
        start,
    };
    match judge(ways) {
        Judged::Nothing => unreachable!(),
        Judged::TooDeep(depth) => Err(ReadError::TooDeep(depth)),
        Judged::One => Ok(Found::Only(first_reading(alloc, forest, &row)?)),
        Judged::More => {
            let (one, other) = two_readings(alloc, forest, &row)?;
            Ok(Found::Two(one, other))
        }
    }
}

/// The only reading of what is shown, or two of more. Where there is none, nothing is counted.
pub(crate) fn read_shown(
    alloc: Global,
    by: &ReadyGrammar,
    ranks: &[u32],
    start: u32,
    shown: &[Shown],
) -> Result<Found, ReadError>
    requires short { length shown.now ≤ most_tokens }
    requires below { ShownBelow (length (literal_texts by.now)) shown.now }
    requires ranking { IsRanking (plain by.now) (rank_at ranks.now) }
    ensures found { IfOk result (IsFound (plain by.now) (tokens_of by.now shown.now) start) }
    ensures refused { IfErr result (λ e. (labels texts : List (List ℕ)) →
        IsReadRefusal labels texts (plain by.now) (tokens_of by.now shown.now) start e) }
{
    let chart = chart_of(alloc, by, start, shown)?;
    let grammar = by.grammar();
    if has_reading(grammar, start, shown, chart.spans()) {
        read_spans(alloc, grammar, ranks, start, shown, chart.spans())
    } else {
        Err(ReadError::NoReading(chart.reach()))
    }
}
