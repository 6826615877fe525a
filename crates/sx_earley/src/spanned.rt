//! The spans and the greatest end of items.

ghost use Rattle.std.specs.Prelude.{◌≡◌, ◌<◌, OnOk, IfOk, Some, length, slice_get, max};
ghost use Rattle.sx_earley.specs.Shown.{plain};
ghost use Rattle.sx_earley.specs.Completed.{span_of, AreSpans, AddsSpan, IsReach};

use crate::item_set::ItemSet;
use crate::span::{Span, SpanOf};
use crate::symbols::ends_at;
use std::alloc::{AllocError, Global};
use sx_grammar::{Grammar, Head, Item};

/// The item at a place of the set.
#[inline(always)]
pub(crate) fn item_within(found: &ItemSet, place: usize) -> Item
    requires { place < length found.now }
    ensures { slice_get found.now place ≡ Some result }
{
    match found.get(place) {
        Some(item) => item,
        None => unreachable!(),
    }
}

/// The span of the item.
fn span_of(item: Item) -> Span
    ensures { result ≡ span_of item }
{
    let of = match item.head {
        Head::Labelled(label) => SpanOf::Node(label),
        Head::Bracketed(sort) => SpanOf::Bracket(sort),
    };
    Span {
        of,
        from: item.origin,
        to: item.end,
    }
}

/// Adds the item's span, if the item is complete.
fn add_span(grammar: &Grammar, spans: &mut Vec<Span>, item: Item) -> Result<(), AllocError>
    ensures { OnOk result (AddsSpan (plain grammar.now) item spans.old.items spans.new.items) }
{
    if ends_at(grammar, item.head, item.dot) {
        spans.push(span_of(item))?;
    }
    Ok(())
}

/// The spans of the complete items, each once.
pub(crate) fn complete_spans(
    alloc: Global,
    grammar: &Grammar,
    found: &ItemSet,
) -> Result<Vec<Span>, AllocError>
    ensures { IfOk result (λ v. AreSpans (plain grammar.now) found.now v.items) }
{
    let mut spans = Vec::new(alloc);
    let count = found.len();
    for place in 0..count {
        let item = item_within(found, place);
        add_span(grammar, &mut spans, item)?;
    }
    Ok(spans)
}

/// The greater of two numbers.
fn greater(a: u32, b: u32) -> u32
    ensures { result ≡ max a b }
{
    if a < b { b } else { a }
}

/// The greatest end of any item, or 0.
pub(crate) fn reach(found: &ItemSet) -> u32
    ensures { IsReach found.now result }
{
    let mut most: u32 = 0;
    for place in 0..found.len() {
        let item = item_within(found, place);
        most = greater(most, item.end);
    }
    most
}
