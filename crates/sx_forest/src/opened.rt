//! Spans whose readings are built.

ghost use Rattle.std.specs.Prelude.{◌≡◌, IfOk};
ghost use Rattle.sx_forest.specs.declared.entry.Maker.{Maker};
ghost use Rattle.sx_forest.specs.Forests.{grammar_in, tokens_in, lists_in, IsForest};
ghost use Rattle.sx_forest.specs.Forests.{IsShallowEntry};
ghost use Rattle.sx_forest.specs.Forests.{IsOpened};

use crate::basis::Basis;
use crate::entry::Entry;
use crate::forest::Forest;
use crate::row::Row;
use crate::span_rows::all_rows;
use crate::ways::Ways;
use std::alloc::Global;
use sx_grammar::Head;
use sx_term::NoMemory;

/// A span of the table, with its ways and the rows of its symbols.
#[derive(Drop)]
pub(crate) struct Opened {
    pub(crate) head: Head,
    pub(crate) from: u32,
    pub(crate) to: u32,
    pub(crate) ways: Ways,
    pub(crate) rows: Vec<Row>,
}

/// The span of the entry, which is by the head and begins at the place.
pub(crate) fn open(
    alloc: Global,
    forest: Forest,
    entry: Entry,
    head: Head,
    from: u32,
) -> Result<Opened, NoMemory>
    requires forest { IsForest forest }
    requires entry { IsShallowEntry (grammar_in forest) (tokens_in forest) forest.start from entry }
    requires by { entry.maker ≡ Maker.By head }
    ensures opened { IfOk result (IsOpened (grammar_in forest.entry)
        (tokens_in forest.entry) forest.entry.start (lists_in forest.entry)) }
    ensures same { IfOk result (λ o. (o.head ≡ head) × (o.from ≡ from) × (o.to ≡ entry.to) ×
        (o.ways ≡ entry.ways)) }
{
    let basis = Basis {
        grammar: forest.grammar,
        shown: forest.shown,
        table: forest.table,
    };
    let rows = all_rows(alloc, basis, head, from, entry.to)?;
    Ok(Opened {
        head,
        from,
        to: entry.to,
        ways: entry.ways,
        rows,
    })
}
