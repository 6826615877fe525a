//! Flat bodies with terms of an arena in the place of their parts.

ghost use Rattle.std.specs.Prelude.{◌≡◌, ◌<◌, ◌≤◌, IfOk, length, map, get_or};
ghost use Rattle.sx_term.specs.Tree.{depth_of};
ghost use Rattle.sx_term.specs.Term.{tree};
ghost use Rattle.sx_term.specs.Instances.{instance, bound_by};
ghost use Rattle.sx_arena.specs.Arena.{trees, tree_at, IsArena, IsHeld, AreBelow};
ghost use Rattle.sx_term.specs.Limits.{most_depth};

use std::alloc::Global;
use sx_arena::Arena;
use sx_term::{NoMemory, Term};

/// The number of the flat body with the term of each of these numbers in the place of the part.
pub fn filled(
    alloc: Global,
    arena: &mut Arena,
    flat: &Term,
    parts: &[usize],
) -> Result<usize, NoMemory>
    requires depth { depth_of (tree flat.now) ≤ most_depth }
    requires arena { IsArena arena.old }
    requires parts { AreBelow (length (trees arena.old)) parts.now }
    ensures { IfOk result (λ i. IsHeld arena.old arena.new i
        (instance (bound_by (map (tree_at (trees arena.old)) parts.now)) (tree flat.now))) }
{
    match flat {
        Term::Node { label, kids } => {
            let mut made = Vec::with_capacity(alloc, kids.len())?;
            for kid in kids {
                made.push(filled(alloc, arena, kid, parts)?)?;
            }
            arena.node(*label, made)
        }
        Term::Lex { kind, text } => arena.lexeme(alloc, *kind, text),
        Term::Var(variable) => {
            let i = *variable as usize;
            if i < parts.len() {
                return Ok(part_at(parts, i));
            }
            arena.node(0, Vec::new(alloc))
        }
    }
}

/// The number at this place.
fn part_at(parts: &[usize], place: usize) -> usize
    requires { place < length parts.now }
    ensures { result ≡ get_or parts.now place result }
{
    parts[place]
}
