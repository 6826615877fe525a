//! Plain images by number.

ghost use Rattle.std.specs.Prelude.{◌<◌, ◌≤◌, IfOk, OnOk, length};
ghost use Rattle.sx_term.specs.Tree.{depth_of};
ghost use Rattle.sx_plain.specs.Tables.{FitsTable};
ghost use Rattle.sx_plain.specs.Views.{table_of};
ghost use Rattle.sx_arena.specs.Arena.{trees, tree_at, IsArena};
ghost use Rattle.sx_images.specs.Images.{AreImages, IsMeasure};
ghost use Rattle.sx_images.specs.Lowered.{IsLowered};
ghost use Rattle.sx_term.specs.Limits.{most_depth};

use crate::images::Images;
use crate::making::made;
use crate::measuring::measured;
use std::alloc::Global;
use sx_arena::Arena;
use sx_plain::{Measure, PlainTable};
use sx_term::{MOST_DEPTH, MOST_SIZE, NoMemory, TermError};

impl Images {
    /// The number of the plain image of the term with this number. The image is measured before it
    /// is made, and refused as TooDeep where its depth is more than 1,000, and else as TooBig where
    /// it has more than 1,000,000 nodes, lexemes and variables. After these two refusals the arena
    /// is as before. A term that was met before costs a look-up.
    pub fn lower(
        &mut self,
        alloc: Global,
        table: &PlainTable,
        arena: &mut Arena,
        term: usize,
    ) -> Result<usize, TermError>
        requires arena { IsArena arena.old }
        requires known { AreImages (table_of table.now) (trees arena.old) self.old }
        requires within { term < length (trees arena.old) }
        requires shallow { depth_of (tree_at (trees arena.old) term) ≤ most_depth }
        requires fits { FitsTable (table_of table.now) (tree_at (trees arena.old) term) }
        ensures { IsLowered (table_of table.now) arena.old arena.new self.new
            (tree_at (trees arena.old) term) result }
    {
        let measure = measured(alloc, table, arena, &mut self.measures, term)?;
        if measure.depth > MOST_DEPTH {
            return Err(TermError::TooDeep(measure.depth));
        }
        if measure.size > MOST_SIZE {
            return Err(TermError::TooBig(measure.size));
        }
        Ok(made(alloc, table, arena, &mut self.numbers, term)?)
    }
    /// How deep and how big the plain image of the term with this number is. No image is made. A
    /// term that was met before costs a look-up.
    pub fn measure(
        &mut self,
        alloc: Global,
        table: &PlainTable,
        arena: &Arena,
        term: usize,
    ) -> Result<Measure, NoMemory>
        requires arena { IsArena arena.now }
        requires known { AreImages (table_of table.now) (trees arena.now) self.old }
        requires within { term < length (trees arena.now) }
        requires shallow { depth_of (tree_at (trees arena.now) term) ≤ most_depth }
        requires fits { FitsTable (table_of table.now) (tree_at (trees arena.now) term) }
        ensures known { OnOk result (AreImages (table_of table.now)
            (trees arena.now) self.new) }
        ensures measure { IfOk result (IsMeasure (table_of table.now)
            (tree_at (trees arena.now) term)) }
    {
        measured(alloc, table, arena, &mut self.measures, term)
    }
}
