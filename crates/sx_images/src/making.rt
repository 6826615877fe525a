//! Plain images, each made once.

ghost use Rattle.std.specs.Prelude.{◌<◌, ◌≤◌, IfOk, OnOk, length};
ghost use Rattle.sx_term.specs.Tree.{depth_of};
ghost use Rattle.sx_plain.specs.Plain.{image};
ghost use Rattle.sx_plain.specs.Views.{table_of};
ghost use Rattle.sx_arena.specs.Arena.{trees, tree_at, IsArena, IsHeld};
ghost use Rattle.sx_images.specs.Images.{AreImagesNoted};
ghost use Rattle.sx_term.specs.Limits.{most_depth};

use crate::filling::filled;
use crate::node::node_at;
use crate::notes::{note, noted};
use std::alloc::Global;
use sx_arena::Arena;
use sx_plain::PlainTable;
use sx_term::NoMemory;

/// The number of the plain image of the term with this number: the one that is noted, or else the
/// image is made and noted.
#[cycle(made)]
pub(crate) fn made(
    alloc: Global,
    table: &PlainTable,
    arena: &mut Arena,
    notes: &mut Vec<Option<usize>>,
    term: usize,
) -> Result<usize, NoMemory>
    requires arena { IsArena arena.old }
    requires known { AreImagesNoted (table_of table.now) (trees arena.old) notes.old.items }
    requires within { term < length (trees arena.old) }
    requires shallow { depth_of (tree_at (trees arena.old) term) ≤ most_depth }
    ensures known { OnOk result (AreImagesNoted (table_of table.now)
        (trees arena.new) notes.new.items) }
    ensures image { IfOk result (λ i. IsHeld arena.old arena.new i
        (image (table_of table.now) (tree_at (trees arena.old) term))) }
{
    if let Some(image) = noted(notes, term) {
        return Ok(image);
    }
    let image = new_image(alloc, table, arena, notes, term)?;
    note(notes, term, image)?;
    Ok(image)
}

/// The number of the plain image of a term, by those of its kids.
#[cycle(made)]
fn new_image(
    alloc: Global,
    table: &PlainTable,
    arena: &mut Arena,
    notes: &mut Vec<Option<usize>>,
    term: usize,
) -> Result<usize, NoMemory>
    requires arena { IsArena arena.old }
    requires known { AreImagesNoted (table_of table.now) (trees arena.old) notes.old.items }
    requires within { term < length (trees arena.old) }
    requires shallow { depth_of (tree_at (trees arena.old) term) ≤ most_depth }
    ensures known { OnOk result (AreImagesNoted (table_of table.now)
        (trees arena.new) notes.new.items) }
    ensures image { IfOk result (λ i. IsHeld arena.old arena.new i
        (image (table_of table.now) (tree_at (trees arena.old) term))) }
{
    match node_at(alloc, arena, term)? {
        Some(node) => {
            let mut parts = Vec::with_capacity(alloc, node.kids.len())?;
            for kid in &node.kids {
                parts.push(made(alloc, table, arena, notes, *kid)?)?;
            }
            match table.flat(node.label) {
                Some(flat) => filled(alloc, arena, flat, &parts),
                None => arena.node(node.label, parts),
            }
        }
        None => Ok(term),
    }
}
