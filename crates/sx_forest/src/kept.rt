//! Rows that are kept from one span for the next.

ghost use Rattle.std.specs.Prelude.{◌≡◌, ◌≤◌, IfOk, length};
ghost use Rattle.sx_earley.specs.Shown.{plain, literal_texts, tokens_of, ShownBelow};
ghost use Rattle.sx_forest.specs.Rows.{AllSorted};
ghost use Rattle.sx_forest.specs.KeptRows.{AreRowsReady};
ghost use Rattle.sx_term.specs.Limits.{most_tokens};

use crate::basis::Basis;
use crate::row::Row;
use crate::span_rows::{last_rows, symbol_count};
use crate::spreading::stretches;
use crate::stretch::Stretch;
use std::alloc::Global;
use sx_grammar::Head;
use sx_term::NoMemory;

/// The rows after the first symbol of a head up to an end, and the stretches of places at which its
/// symbols can begin.
#[derive(Drop)]
pub(crate) struct Kept {
    pub(crate) head: Head,
    pub(crate) to: u32,
    pub(crate) stretches: Vec<Stretch>,
    pub(crate) rows: Vec<Row>,
}

/// Those of a span.
pub(crate) fn rows_of(
    alloc: Global,
    basis: Basis,
    head: Head,
    from: u32,
    to: u32,
) -> Result<Kept, NoMemory>
    requires short { to ≤ most_tokens }
    requires along { from ≤ to }
    requires shown { ShownBelow (length (literal_texts basis.grammar.now)) basis.shown.now }
    requires sorted { AllSorted basis.table.now.lists.items }
    ensures ready { IfOk result (AreRowsReady (plain basis.entry.grammar.now)
        (tokens_of basis.entry.grammar.now basis.entry.shown.now)
        basis.entry.table.now.lists.items from) }
    ensures same { IfOk result (λ k. (k.head ≡ head) × (k.to ≡ to)) }
{
    let count = symbol_count(basis.grammar, head);
    let stretches = stretches(alloc, basis, head, count, from, to)?;
    let rows = last_rows(alloc, basis, head, &stretches, count.saturating_sub(1), to)?;
    Ok(Kept {
        head,
        to,
        stretches,
        rows,
    })
}
