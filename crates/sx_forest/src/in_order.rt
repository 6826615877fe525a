//! The order in which spans are counted.

ghost use Rattle.std.specs.Prelude.{◌≡◌, ◌≤◌, Some, IfOk, OnOk, Contains};
ghost use Rattle.std.specs.List.Sorted.{IsPermutation};
ghost use Rattle.sx_grammar.specs.Grammar.{production_of};
ghost use Rattle.sx_grammar.specs.Order.{rank_at};
ghost use Rattle.sx_grammar.specs.Tally.{EachOnce};
ghost use Rattle.sx_earley.specs.Completed.{head_of};
ghost use Rattle.sx_earley.specs.Shown.{plain};
ghost use Rattle.sx_earley.specs.declared.span.Span.{Span};
ghost use Rattle.sx_forest.specs.Ordering.{sort_in, IsOrdered, IsInOrder, AreOrdered};

use crate::ordered::Ordered;
use std::alloc::Global;
use sx_earley::{Span, SpanOf, sort_of};
use sx_grammar::{Grammar, Head};
use sx_term::NoMemory;

/// What the span is of.
pub(crate) fn head_of(of: SpanOf) -> Head
    ensures { result ≡ head_of of }
{
    match of {
        SpanOf::Node(label) => Head::Labelled(label),
        SpanOf::Bracket(sort) => Head::Bracketed(sort),
    }
}

/// The rank of the sort that the head makes.
fn rank_of(grammar: &Grammar, ranks: &[u32], head: Head) -> u32
    ensures { result ≡ rank_at ranks.now (sort_in (production_of (plain grammar.now) head)) }
{
    let sort = match sort_of(grammar, head) {
        None => 0,
        Some(sort) => sort,
    };
    match ranks.get(sort as usize) {
        None => 0,
        Some(rank) => *rank,
    }
}

/// The span with its width and its rank.
fn ordered(grammar: &Grammar, ranks: &[u32], span: Span) -> Ordered
    requires { span.from ≤ span.to }
    ensures is { IsOrdered (plain grammar.now) (rank_at ranks.now) result }
    ensures span { result.span ≡ span }
{
    Ordered {
        width: span.to - span.from,
        rank: rank_of(grammar, ranks, head_of(span.of)),
        span,
    }
}

/// Sorts the spans by their ends, spans of one end by their widths, and those of one width too by
/// their ranks.
fn sort(list: &mut Vec<Ordered>) -> Result<(), NoMemory>
    ensures permutation { IsPermutation list.old.items list.new.items }
    ensures sorted { OnOk result (IsInOrder list.new.items) }
{
    list.sort_by_key(|o| (o.span.to, (o.width, o.rank)))?;
    Ok(())
}

/// The spans in the order in which they are counted: those that end earlier first, of one end the
/// narrower ones, and of one width those of a lower rank. So the entries from each place stand in
/// the order of their ends.
pub(crate) fn in_order(
    alloc: Global,
    grammar: &Grammar,
    ranks: &[u32],
    spans: &[Span],
) -> Result<Vec<Ordered>, NoMemory>
    requires along { (s : Span) → Contains spans.now s → s.from ≤ s.to }
    requires once { EachOnce spans.now }
    ensures { IfOk result (λ v. AreOrdered (plain grammar.now)
        (rank_at ranks.now) spans.now v.items) }
{
    let mut list = Vec::new(alloc);
    for span in spans {
        list.push(ordered(grammar, ranks, *span))?;
    }
    sort(&mut list)?;
    Ok(list)
}
