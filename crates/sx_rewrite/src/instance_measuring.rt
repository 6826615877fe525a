//! How deep and how big instances are.

ghost use Rattle.std.specs.Prelude.{◌≡◌, ◌+◌, ◌-◌, ◌^◌, ◌≤◌, min, slice_index_or};
ghost use Rattle.sx_term.specs.Tree.{depth_of};
ghost use Rattle.sx_term.specs.Term.{tree};
ghost use Rattle.sx_plain.specs.Measures.{depth_with, size_with, greatest};
ghost use Rattle.sx_plain.specs.PartMeasures.{depths_of, sizes_of};
ghost use Rattle.sx_term.specs.Limits.{most_depth};

use sx_plain::Measure;
use sx_term::Term;

/// The depth and the size of the instance of the term, by those of what is put
/// for its variables. The size stays at the greatest u64. Each node of
/// the term is looked at once, and nothing that is put.
pub fn instance_measure(term: &Term, parts: &[Measure]) -> Measure
    requires shallow { depth_of (tree term.now) ≤ most_depth }
    requires parts { greatest (depths_of parts.now) ≤ 1001000 }
    ensures depth { result.depth ≡ depth_with (depths_of parts.now) (tree term.now) }
    ensures small { result.depth ≤ 1001000 + depth_of (tree term.now) }
    ensures size { result.size
        ≡ min (size_with (sizes_of parts.now) (tree term.now)) (2 ^ 64 - 1) }
{
    match term {
        Term::Node { label: _, kids } => {
            let mut depth: u32 = 0;
            let mut size: u64 = 1;
            for kid in kids {
                let measure = instance_measure(kid, parts);
                depth = depth.max(measure.depth);
                size = size.saturating_add(measure.size);
            }
            Measure {
                depth: depth + 1,
                size,
            }
        }
        Term::Lex { kind: _, text: _ } => Measure { depth: 1, size: 1 },
        Term::Var(variable) => part_measure(parts, *variable),
    }
}

/// The measure of what is put for the variable, or that of a node without kids where nothing is.
fn part_measure(parts: &[Measure], variable: u32) -> Measure
    requires { greatest (depths_of parts.now) ≤ 1001000 }
    ensures depth { result.depth ≡ slice_index_or (depths_of parts.now) variable 1 }
    ensures small { result.depth ≤ 1001000 }
    ensures size { result.size ≡ slice_index_or (sizes_of parts.now) variable 1 }
{
    let place = variable as usize;
    if place < parts.len() {
        return parts[place];
    }
    Measure { depth: 1, size: 1 }
}
