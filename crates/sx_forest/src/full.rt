//! The table of the complete spans that can be of use.

ghost use Rattle.std.specs.Prelude.{◌≤◌, ◌<◌, OnOk, IfOk, length};
ghost use Rattle.sx_grammar.specs.Order.{IsRanking, rank_at};
ghost use Rattle.sx_grammar.specs.Tally.{EachOnce};
ghost use Rattle.sx_earley.specs.Shown.{plain, literal_texts, tokens_of, ShownBelow};
ghost use Rattle.sx_earley.specs.Completed.{IsChart};
ghost use Rattle.sx_forest.specs.Rows.{AllSorted};
ghost use Rattle.sx_forest.specs.KeptRows.{AllKept};
ghost use Rattle.sx_forest.specs.Table.{IsEntryAdded, IsFull};
ghost use Rattle.sx_term.specs.Limits.{most_tokens};

use crate::basis::Basis;
use crate::entries::Entries;
use crate::entry::{Entry, Maker};
use crate::first_entries::first_entries;
use crate::in_order::{head_of, in_order};
use crate::kept::Kept;
use crate::span_ways::{leave, span_ways};
use crate::useful::useful_spans;
use std::alloc::Global;
use sx_earley::{Shown, Span};
use sx_grammar::Grammar;
use sx_term::NoMemory;

/// Adds an entry for the span, whose ways it counts by the rows that are kept; it keeps those that
/// the entry leaves as they are.
fn add_span(
    alloc: Global,
    grammar: &Grammar,
    shown: &[Shown],
    table: &mut Entries,
    kept: &mut Vec<Kept>,
    span: Span,
) -> Result<(), NoMemory>
    requires short { span.to ≤ most_tokens }
    requires along { span.from ≤ span.to }
    requires inside { span.to < length table.old.lists.items }
    requires shown { ShownBelow (length (literal_texts grammar.now)) shown.now }
    requires sorted { AllSorted table.old.lists.items }
    requires kept { AllKept (plain grammar.now) (tokens_of grammar.now shown.now)
        table.old.lists.items kept.old.items }
    ensures added { OnOk result (IsEntryAdded (plain grammar.now)
        (tokens_of grammar.now shown.now) table.old.lists.items table.new.lists.items span) }
    ensures kept { OnOk result (AllKept (plain grammar.now) (tokens_of grammar.now shown.now)
        table.new.lists.items kept.new.items) }
{
    let head = head_of(span.of);
    let basis = Basis {
        grammar,
        shown,
        table,
    };
    let ways = span_ways(alloc, basis, kept, head, span.from, span.to)?;
    leave(kept, span.from);
    table.put(
        span.from,
        Entry {
            maker: Maker::By(head),
            to: span.to,
            ways,
        },
    )
}

/// The table of the complete spans that can be of use: the entries of the spans, and those of
/// metavariables.
pub(crate) fn fill(
    alloc: Global,
    grammar: &Grammar,
    ranks: &[u32],
    _start: u32,
    shown: &[Shown],
    spans: &[Span],
) -> Result<Entries, NoMemory>
    requires short { length shown.now ≤ most_tokens }
    requires below { ShownBelow (length (literal_texts grammar.now)) shown.now }
    requires ranking { IsRanking (plain grammar.now) (rank_at ranks.now) }
    requires chart { IsChart (plain grammar.now)
        (tokens_of grammar.now shown.now) _start spans.now }
    requires once { EachOnce spans.now }
    ensures { IfOk result (λ t. IsFull (plain grammar.now)
        (tokens_of grammar.now shown.now) _start t.lists.items) }
{
    grammar.facts();
    let useful = useful_spans(alloc, grammar, _start, shown, spans)?;
    let ordered = in_order(alloc, grammar, ranks, &useful)?;
    drop(useful);
    let mut table = first_entries(alloc, shown)?;
    let mut kept = Vec::new(alloc);
    for item in &ordered {
        add_span(alloc, grammar, shown, &mut table, &mut kept, item.span)?;
    }
    Ok(table)
}
