//! Cells of terms, each found by its shape.

ghost use Rattle.std.specs.Prelude.{◌≡◌, ◌<◌, [], ◌∷◌, ◌++◌, OnOk};
ghost use Rattle.std.specs.Prelude.{length, take, get_or};
ghost use Rattle.sx_arena.specs.Found.{IsFind};
ghost use Rattle.sx_arena.specs.Hashed.{mixed, hash_of, is_node_of};
ghost use Rattle.sx_arena.specs.contracts.shape.ShapePartialEq.TheImpl.{eq-value as shape_eq};

use crate::arena::Cell;
use crate::shape::{Shape, is_node};
use std::alloc::{AllocError, Global};
use std::marker::Model;
use sx_slots::{Slots, folded};

/// Cells in the order in which they were put, each found by the hash of its shape.
#[derive(Drop)]
pub struct Cells {
    cells: Vec<Cell>,
    slots: Slots,
}

impl Model for Cells {
    ghost use Rattle.std.specs.Prelude.{List, ◌≡◌};
    ghost use Rattle.sx_arena.specs.declared.arena.Cell.{Cell};
    ghost use Rattle.sx_arena.specs.Found.{hashes_of};

    ghost Value = { List Cell };

    ghost view = { λ c. c.cells.items };

    ghost invariant = { λ c. c.slots ≡ hashes_of c.cells.items };
}

impl Cells {
    /// No cells.
    pub(crate) fn new(alloc: Global) -> Cells
        ensures { result ≡ [] }
    {
        Cells {
            cells: Vec::new(alloc),
            slots: Slots::new(alloc),
        }
    }

    /// How many cells there are.
    pub fn len(&self) -> usize
        ensures { result ≡ length self.now }
    {
        self.cells.len()
    }

    /// The cell with this number.
    #[inline(always)]
    pub(crate) fn get(&self, number: usize) -> &Cell
        requires { number < length self.now }
        ensures { result.now ≡ get_or self.now number result.now }
    {
        &self.cells[number]
    }

    /// The number of the cell with this shape, of which this is the hash.
    pub(crate) fn find(&self, shape: &Shape, hash: u64) -> Option<usize>
        requires hash { hash ≡ hash_of shape.now }
        ensures { IsFind (shape_eq.it shape.now) self.now result }
    {
        let mut here = self.slots.last(folded(hash));
        while let Some(number) = here {
            if *shape == self.cells[number].shape {
                return Some(number);
            }
            here = self.slots.before(number);
        }
        None
    }

    /// The number of the cell that is a node with this label and these kids, of which this is the
    /// hash.
    #[inline(always)]
    pub(crate) fn find_node(&self, label: u32, kids: &[usize], hash: u64) -> Option<usize>
        requires hash { hash ≡ mixed label kids.now }
        ensures { IsFind (is_node_of label kids.now) self.now result }
    {
        let mut here = self.slots.last(folded(hash));
        while let Some(number) = here {
            if is_node(&self.cells[number].shape, label, kids) {
                return Some(number);
            }
            here = self.slots.before(number);
        }
        None
    }

    /// One more cell, the last, whose shape has this hash.
    #[inline(always)]
    pub(crate) fn push(&mut self, cell: Cell, hash: u64) -> Result<(), AllocError>
        requires hash { hash ≡ hash_of cell.shape }
        ensures { OnOk result (self.new ≡ self.old ++ cell ∷ []) }
    {
        match self.cells.reserve(1) {
            Ok(()) => {}
            Err(e) => {
                drop(cell);
                return Err(e);
            }
        }
        match self.slots.push(folded(hash)) {
            Ok(()) => {
                self.cells.push_reserved(cell);
                Ok(())
            }
            Err(e) => {
                drop(cell);
                Err(e)
            }
        }
    }

    /// Drops the cells past the first so many.
    pub(crate) fn truncate(&mut self, many: usize)
        ensures { self.new ≡ take many self.old }
    {
        self.slots.truncate(many);
        self.cells.truncate(many);
    }
}
