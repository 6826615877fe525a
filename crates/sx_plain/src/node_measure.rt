//! How deep and how big the plain image of a node is, by the plain images of its parts.

ghost use Rattle.std.specs.Prelude.{◌≡◌, ◌+◌, ◌-◌, ◌^◌, ◌<◌, ◌≤◌, IfSome, length, min, get_or};
ghost use Rattle.sx_term.specs.Term.{tree};
ghost use Rattle.sx_plain.specs.Measures.{depth_with, size_with, greatest, total, node_depth};
ghost use Rattle.sx_plain.specs.Measures.{node_size};
ghost use Rattle.sx_plain.specs.PartMeasures.{depths_of, sizes_of};
ghost use Rattle.sx_plain.specs.Uses.{ArePositive};
ghost use Rattle.sx_plain.specs.Views.{table_of};
ghost use Rattle.sx_term.specs.Limits.{most_depth};

use crate::entry::Entry;
use crate::make_entry::use_at;
use crate::measure::{Measure, with_part};
use crate::table::PlainTable;

impl PlainTable {
    /// The depth and the size of the plain image of a node with this label, by those of the plain
    /// images of its parts. No body is looked at.
    pub fn measure(&self, label: u32, parts: &[Measure]) -> Measure
        requires many { IfSome (table_of self.now label) (λ b. length parts.now ≡ b.arity) }
        requires positive { ArePositive (depths_of parts.now) }
        requires shallow { greatest (depths_of parts.now) ≤ 1001000 }
        ensures depth { result.depth ≡ node_depth (table_of self.now label) (depths_of parts.now) }
        ensures small { result.depth ≤ greatest (depths_of parts.now) + most_depth }
        ensures size { result.size ≡ min (node_size (table_of self.now label) (sizes_of parts.now))
            (2 ^ 64 - 1) }
    {
        match self.entry(label) {
            Some(entry) => measure_of_body(entry, parts),
            None => measure_of_node(parts),
        }
    }
}

/// The measure at this place.
fn measure_at(measures: &[Measure], place: usize) -> Measure
    requires { place < length measures.now }
    ensures { result ≡ get_or measures.now place result }
{
    measures[place]
}

/// The depth and the size of the entry's flat body with terms of these depths and sizes in the
/// place of its parts.
fn measure_of_body(entry: &Entry, parts: &[Measure]) -> Measure
    requires many { length parts.now ≡ entry.now.arity }
    requires positive { ArePositive (depths_of parts.now) }
    requires shallow { greatest (depths_of parts.now) ≤ 1001000 }
    ensures depth { result.depth ≡ depth_with (depths_of parts.now) (tree entry.now.flat) }
    ensures small { result.depth ≤ greatest (depths_of parts.now) + most_depth }
    ensures size { result.size ≡ min (size_with (sizes_of parts.now) (tree entry.now.flat))
        (2 ^ 64 - 1) }
{
    let mut depth = entry.depth;
    let mut size = entry.own;
    for i in 0..parts.len() {
        let measure = measure_at(parts, i);
        let part = use_at(&entry.uses, i);
        depth = depth.max(part.above + measure.depth);
        size = with_part(size, part, measure.size);
    }
    Measure { depth, size }
}

/// The depth and the size of a node whose kids have these depths and sizes.
fn measure_of_node(kids: &[Measure]) -> Measure
    requires shallow { greatest (depths_of kids.now) ≤ 1001000 }
    ensures depth { result.depth ≡ greatest (depths_of kids.now) + 1 }
    ensures size { result.size ≡ min (total (sizes_of kids.now) + 1) (2 ^ 64 - 1) }
{
    let mut depth: u32 = 0;
    let mut size: u64 = 1;
    for i in 0..kids.len() {
        let measure = measure_at(kids, i);
        depth = depth.max(measure.depth);
        size = size.saturating_add(measure.size);
    }
    Measure {
        depth: depth + 1,
        size,
    }
}
