//! How deep and how big plain images are, each measured once.

ghost use Rattle.std.specs.Prelude.{◌<◌, ◌≤◌, IfOk, OnOk, length};
ghost use Rattle.sx_term.specs.Tree.{depth_of};
ghost use Rattle.sx_plain.specs.Tables.{FitsTable};
ghost use Rattle.sx_plain.specs.Views.{table_of};
ghost use Rattle.sx_arena.specs.Arena.{trees, tree_at, IsArena};
ghost use Rattle.sx_images.specs.Images.{IsMeasure, AreMeasured};
ghost use Rattle.sx_term.specs.Limits.{most_depth};

use crate::notes::{note, noted};
use std::alloc::Global;
use sx_arena::{Arena, Shape};
use sx_plain::{Measure, PlainTable};
use sx_term::NoMemory;

/// The depth and the size of the plain image of the term with this number: those that are noted, or
/// else they are measured and noted.
#[cycle(measured)]
pub(crate) fn measured(
    alloc: Global,
    table: &PlainTable,
    arena: &Arena,
    notes: &mut Vec<Option<Measure>>,
    term: usize,
) -> Result<Measure, NoMemory>
    requires arena { IsArena arena.now }
    requires known { AreMeasured (table_of table.now) (trees arena.now) notes.old.items }
    requires within { term < length (trees arena.now) }
    requires shallow { depth_of (tree_at (trees arena.now) term) ≤ most_depth }
    requires fits { FitsTable (table_of table.now) (tree_at (trees arena.now) term) }
    ensures known { OnOk result (AreMeasured (table_of table.now)
        (trees arena.now) notes.new.items) }
    ensures measure { IfOk result (IsMeasure (table_of table.now)
        (tree_at (trees arena.now) term)) }
{
    if let Some(measure) = noted(notes, term) {
        return Ok(measure);
    }
    let measure = new_measure(alloc, table, arena, notes, term)?;
    note(notes, term, measure)?;
    Ok(measure)
}

/// The depth and the size of the plain image of a term, by those of its kids.
#[cycle(measured)]
fn new_measure(
    alloc: Global,
    table: &PlainTable,
    arena: &Arena,
    notes: &mut Vec<Option<Measure>>,
    term: usize,
) -> Result<Measure, NoMemory>
    requires arena { IsArena arena.now }
    requires known { AreMeasured (table_of table.now) (trees arena.now) notes.old.items }
    requires within { term < length (trees arena.now) }
    requires shallow { depth_of (tree_at (trees arena.now) term) ≤ most_depth }
    requires fits { FitsTable (table_of table.now) (tree_at (trees arena.now) term) }
    ensures known { OnOk result (AreMeasured (table_of table.now)
        (trees arena.now) notes.new.items) }
    ensures measure { IfOk result (IsMeasure (table_of table.now)
        (tree_at (trees arena.now) term)) }
{
    match &arena.cell(term).shape {
        Shape::Node { label, kids } => {
            let mut parts = Vec::with_capacity(alloc, kids.len())?;
            for kid in kids.as_slice() {
                parts.push(measured(alloc, table, arena, notes, *kid)?)?;
            }
            Ok(table.measure(*label, &parts))
        }
        Shape::Lex { kind: _, text: _ } => Ok(Measure { depth: 1, size: 1 }),
        Shape::Var(_) => Ok(Measure { depth: 1, size: 1 }),
    }
}
