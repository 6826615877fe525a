//! Instances of terms.

ghost use Rattle.std.specs.Prelude.{◌≡◌, ◌≤◌, IfOk, map};
ghost use Rattle.sx_term.specs.Tree.{depth_of, greatest_depth, forest};
ghost use Rattle.sx_term.specs.Term.{tree};
ghost use Rattle.sx_term.specs.Instances.{instance, bound_by};
ghost use Rattle.sx_term.specs.Limits.{most_depth};

use std::alloc::Global;
use sx_term::{NoMemory, Term};

/// The instance of the term, with a part in the place of each variable.
/// The one refusal is out of memory.
pub(crate) fn instance_made(alloc: Global, term: &Term, parts: &[Term]) -> Result<Term, NoMemory>
    requires shallow { depth_of (tree term.now) ≤ most_depth }
    requires parts { greatest_depth (forest (map tree parts.now)) ≤ most_depth }
    ensures { IfOk result (λ t. tree t
        ≡ instance (bound_by (map tree parts.now)) (tree term.now)) }
{
    match term {
        Term::Node { label, kids } => {
            let mut made = Vec::with_capacity(alloc, kids.len())?;
            for kid in kids {
                made.push(instance_made(alloc, kid, parts)?)?;
            }
            Ok(Term::Node {
                label: *label,
                kids: made,
            })
        }
        Term::Lex { kind, text } => Ok(Term::Lex {
            kind: *kind,
            text: text.copy(alloc)?,
        }),
        Term::Var(variable) => part_copy(alloc, parts, *variable),
    }
}

/// A copy of the part for the variable, or a node without kids where there is none.
fn part_copy(alloc: Global, parts: &[Term], variable: u32) -> Result<Term, NoMemory>
    requires { greatest_depth (forest (map tree parts.now)) ≤ most_depth }
    ensures { IfOk result (λ t. tree t ≡ bound_by (map tree parts.now) variable) }
{
    let place = variable as usize;
    if place < parts.len() {
        return parts[place].copy(alloc);
    }
    Ok(Term::Node {
        label: 0,
        kids: Vec::new(alloc),
    })
}
