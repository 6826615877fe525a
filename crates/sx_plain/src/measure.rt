//! How deep and how big plain images are.

ghost use Rattle.std.specs.Prelude.{◌≡◌, ◌+◌, ◌*◌, ◌-◌, ◌^◌, ◌<◌, ◌≤◌, length, map, min};
ghost use Rattle.sx_term.specs.Tree.{depth_of, size_of, greatest_depth, forest};
ghost use Rattle.sx_term.specs.Term.{tree};
ghost use Rattle.sx_plain.specs.Plain.{image};
ghost use Rattle.sx_plain.specs.Tables.{FitsTable, FitTable};
ghost use Rattle.sx_plain.specs.Measures.{depth_with, size_with, greatest, total, image_depths};
ghost use Rattle.sx_plain.specs.Measures.{image_sizes};
ghost use Rattle.sx_plain.specs.Views.{table_of};
ghost use Rattle.sx_term.specs.Limits.{most_depth};

use crate::entry::Entry;
use crate::make_entry::use_at;
use crate::part_use::PartUse;
use crate::table::PlainTable;
use sx_term::Term;

/// How deep and how big a term is. The size stays at the greatest u64 where it would pass it.
#[derive(Clone, Copy)]
pub struct Measure {
    pub depth: u32,
    pub size: u64,
}

/// The depth and the size of the plain image. Each node of the term is looked at once, and no body.
#[cycle(measured)]
pub fn image_measure(table: &PlainTable, term: &Term) -> Measure
    requires shallow { depth_of (tree term.now) ≤ most_depth }
    requires fits { FitsTable (table_of table.now) (tree term.now) }
    ensures depth { result.depth ≡ depth_of (image (table_of table.now) (tree term.now)) }
    ensures small { result.depth ≤ (most_depth + 1) * depth_of (tree term.now) }
    ensures size { result.size ≡ min (size_of (image (table_of table.now) (tree term.now)))
        (2 ^ 64 - 1) }
{
    match term {
        Term::Node { label, kids } => match table.entry(*label) {
            Some(entry) => body_measure(table, entry, kids),
            None => node_measure(table, kids),
        },
        Term::Lex { kind: _, text: _ } => Measure { depth: 1, size: 1 },
        Term::Var(_) => Measure { depth: 1, size: 1 },
    }
}

/// The depth and the size of the entry's flat body with the plain images of these parts.
#[cycle(measured)]
fn body_measure(table: &PlainTable, entry: &Entry, parts: &[Term]) -> Measure
    requires shallow { greatest_depth (forest (map tree parts.now)) < most_depth }
    requires fit { FitTable (table_of table.now) (forest (map tree parts.now)) }
    requires many { length parts.now ≡ entry.now.arity }
    ensures depth { result.depth ≡ depth_with
        (image_depths (table_of table.now) (map tree parts.now)) (tree entry.now.flat) }
    ensures small { result.depth ≤ (most_depth + 1) *
        (greatest_depth (forest (map tree parts.now)) + 1) }
    ensures size { result.size ≡ min (size_with
        (image_sizes (table_of table.now) (map tree parts.now)) (tree entry.now.flat))
        (2 ^ 64 - 1) }
{
    let mut depth = entry.depth;
    let mut size = entry.own;
    for i in 0..parts.len() {
        let part = use_at(&entry.uses, i);
        let measure = image_measure(table, &parts[i]);
        depth = depth.max(part.above + measure.depth);
        size = with_part(size, part, measure.size);
    }
    Measure { depth, size }
}

/// The depth and the size of a node with the plain images of these kids.
#[cycle(measured)]
fn node_measure(table: &PlainTable, kids: &[Term]) -> Measure
    requires shallow { greatest_depth (forest (map tree kids.now)) < most_depth }
    requires fit { FitTable (table_of table.now) (forest (map tree kids.now)) }
    ensures depth { result.depth ≡ greatest (image_depths (table_of table.now)
        (map tree kids.now)) + 1 }
    ensures small { result.depth ≤ (most_depth + 1) *
        (greatest_depth (forest (map tree kids.now)) + 1) }
    ensures size { result.size
        ≡ min (total (image_sizes (table_of table.now) (map tree kids.now)) + 1) (2 ^ 64 - 1) }
{
    let mut depth: u32 = 0;
    let mut size: u64 = 1;
    for i in 0..kids.len() {
        let measure = image_measure(table, &kids[i]);
        depth = depth.max(measure.depth);
        size = size.saturating_add(measure.size);
    }
    Measure {
        depth: depth + 1,
        size,
    }
}

/// The size so far with that of a part, as often as it is used, or the greatest u64.
pub(crate) fn with_part(so_far: u64, part: PartUse, size: u64) -> u64
    ensures { result ≡ min (so_far + min (part.times * size) (2 ^ 64 - 1)) (2 ^ 64 - 1) }
{
    so_far.saturating_add(u64::from(part.times).saturating_mul(size))
}
