//! The completed spans of charts, and how many items hold.

ghost use Rattle.std.specs.Prelude.{◌≤◌, length};
ghost use Rattle.sx_earley.specs.Unknown.{HaveStems};
ghost use Rattle.sx_earley.specs.Completed.{IsSort};

use crate::asserts::assert_same;
use crate::known::{first_sort, have_stems};
use crate::renumbered::{Cut, cut_as, cut_text};
use crate::samples::{Sample, grammar_of};
use crate::symbols::nested;
use std::alloc::Global;
use sx_earley::{Chart, ChartError, Metas, Span, SpanOf, chart};
use sx_grammar::Grammar;
use sx_term::Sort;
use sx_token::Token;

/// What a chart tells: how many spans there are, how many of those that are looked for, and the
/// greatest end.
#[derive(Clone, Copy, Debug, PartialEq)]
enum Counted {
    Spans {
        count: usize,
        found: usize,
        reach: u32,
    },
    TooHard,
    Memory,
    Unmet,
}

/// How many of the spans are among all.
fn found_among(all: &[Span], spans: &[Span]) -> usize {
    let mut found: usize = 0;
    for span in spans {
        if all.contains(span) {
            found = found.saturating_add(1);
        }
    }
    found
}

fn told_by(chart: &Chart, spans: &[Span]) -> Counted {
    Counted::Spans {
        count: chart.spans().len(),
        found: found_among(chart.spans(), spans),
        reach: chart.reach(),
    }
}

/// What the chart of the tokens tells.
fn charted(
    alloc: Global,
    grammar: &Grammar,
    start: Sort,
    metas: &Metas,
    tokens: &[Token],
    spans: &[Span],
) -> Counted
    requires short { length tokens.now ≤ 10000 }
    requires start { IsSort grammar.now.parts start }
    requires stems { HaveStems metas.now.stems.items tokens.now }
{
    match chart(alloc, grammar, start, metas, tokens) {
        Ok(chart) => told_by(&chart, spans),
        Err(ChartError::TooHard) => Counted::TooHard,
        Err(ChartError::Memory) => Counted::Memory,
    }
}

/// The same where the conditions of the call are met.
fn chart_cut(alloc: Global, grammar: &Grammar, cut: &[Token], spans: &[Span]) -> Counted {
    let metas = Metas {
        stems: Vec::new(alloc),
    };
    match first_sort(grammar) {
        Some(start) if cut.len() <= 10000 && have_stems(cut) => {
            charted(alloc, grammar, start, &metas, cut, spans)
        }
        _ => Counted::Unmet,
    }
}

/// The same of a text.
fn chart_text(alloc: Global, grammar: &Grammar, bytes: &[u8], spans: &[Span]) -> Counted {
    match cut_text(alloc, grammar, bytes) {
        Ok(cut) => {
            let told = chart_cut(alloc, grammar, &cut, spans);
            drop(cut);
            told
        }
        Err(_) => Counted::Unmet,
    }
}

/// The same by the sample.
fn told(alloc: Global, sample: Sample, bytes: &[u8], spans: &[Span]) -> Counted {
    match grammar_of(alloc, sample) {
        Ok(grammar) => {
            let told = chart_text(alloc, &grammar, bytes, spans);
            drop(grammar);
            told
        }
        Err(_) => Counted::Unmet,
    }
}

/// The same of tokens that are cut by another sample.
fn told_of(alloc: Global, sample: Sample, cut: Cut, spans: &[Span]) -> Counted {
    match (cut_as(alloc, cut), grammar_of(alloc, sample)) {
        (Ok(tokens), Ok(grammar)) => {
            let told = chart_cut(alloc, &grammar, &tokens, spans);
            drop(grammar);
            drop(tokens);
            told
        }
        (tokens, grammar) => {
            drop(grammar);
            drop(tokens);
            Counted::Unmet
        }
    }
}

/// What is told where there are only the spans that are looked for.
fn only(count: usize, reach: u32) -> Counted {
    Counted::Spans {
        count,
        found: count,
        reach,
    }
}

/// A span by the production with this number.
fn node(label: u32, from: u32, to: u32) -> Span {
    Span {
        of: SpanOf::Node(label),
        from,
        to,
    }
}

#[test]
fn spans_of_sums(rt: HostRuntime) {
    let spans = [node(0, 0, 1), node(0, 2, 3), node(1, 0, 3)];
    let sum = told(rt.alloc(), Sample::Sums(51), b"1 + 2", &spans);
    let open = told(rt.alloc(), Sample::Sums(51), b"1 + +", &[node(0, 0, 1)]);
    assert_same(&rt, &[sum, open], &[only(3, 3), only(1, 2)]);
}

#[test]
fn spans_of_brackets(rt: HostRuntime) {
    let pair = Span {
        of: SpanOf::Bracket(0),
        from: 0,
        to: 3,
    };
    let brackets = told(
        rt.alloc(),
        Sample::Sums(51),
        b"( 1 )",
        &[node(0, 1, 2), pair],
    );
    assert_same(&rt, &brackets, &only(2, 3));
}

#[test]
fn spans_of_nothing(rt: HostRuntime) {
    let nothing = told(rt.alloc(), Sample::OpenRows, b"", &[node(0, 0, 0)]);
    let spans = [node(0, 0, 0), node(0, 1, 1), node(1, 0, 1)];
    let one = told(rt.alloc(), Sample::OpenRows, b"1", &spans);
    assert_same(&rt, &[nothing, one], &[only(1, 0), only(3, 1)]);
}

/// A literal counts by its text. One that the grammar lacks is read by nothing, so no item ends
/// behind it.
#[test]
fn spans_of_renumbered_literals(rt: HostRuntime) {
    let sum = Cut {
        by: Sample::Sums(51),
        bytes: b"1 + 2",
        number: 0,
    };
    let colon = Cut {
        by: Sample::Functions,
        bytes: b"1 : 2",
        number: 2,
    };
    let spans = [node(0, 0, 1), node(0, 2, 3), node(1, 0, 3)];
    let read = told_of(rt.alloc(), Sample::Sums(51), sum, &spans);
    let open = told_of(rt.alloc(), Sample::Sums(51), colon, &[node(0, 0, 1)]);
    assert_same(&rt, &[read, open], &[only(3, 3), only(1, 1)]);
}

/// What the chart of so many numbers tells, each at the head of the others.
fn numbers(alloc: Global, count: usize) -> Counted {
    let bytes = nested(alloc, b"1 ", count, b"", b"");
    let told = told(alloc, Sample::Rows, &bytes, &[]);
    drop(bytes);
    told
}

/// From n numbers come n (n - 1) / 2 items at the end of `seq`, n at the end of `last` and n after
/// the number of `seq`, and at each of the n + 1 places the beginnings of `last`, of `seq` and of a
/// bracket pair.
#[test]
fn most_items(rt: HostRuntime) {
    let most = numbers(rt.alloc(), 1995);
    let spans = Counted::Spans {
        count: 1995 + 1995 * 1994 / 2,
        found: 0,
        reach: 1995,
    };
    let more = numbers(rt.alloc(), 1996);
    assert_same(&rt, &[most, more], &[spans, Counted::TooHard]);
}
