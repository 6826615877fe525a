//! Nodes of an arena.

ghost use Rattle.std.specs.Prelude.{◌<◌, IfOk, length};
ghost use Rattle.sx_arena.specs.Arena.{trees, tree_at, IsArena};
ghost use Rattle.sx_images.specs.Nodes.{IsNodeAt};

use std::alloc::Global;
use sx_arena::{Arena, Shape, copied};
use sx_term::NoMemory;

/// A node: its label, and the numbers of its kids.
#[derive(Drop)]
pub(crate) struct Node {
    pub label: u32,
    pub kids: Vec<usize>,
}

/// The node with this number, or None where the term is a lexeme or a variable.
pub(crate) fn node_at(alloc: Global, arena: &Arena, term: usize) -> Result<Option<Node>, NoMemory>
    requires arena { IsArena arena.now }
    requires within { term < length (trees arena.now) }
    ensures { IfOk result (λ n. IsNodeAt (trees arena.now) (tree_at (trees arena.now) term) n) }
{
    match &arena.cell(term).shape {
        Shape::Node { label, kids } => Ok(Some(Node {
            label: *label,
            kids: copied(alloc, kids.as_slice())?,
        })),
        Shape::Lex { kind: _, text: _ } => Ok(None),
        Shape::Var(_) => Ok(None),
    }
}
