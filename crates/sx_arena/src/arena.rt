//! Terms of a search: equal terms are stored once, and named by a number. Where a call that only
//! this crate knows lacks memory, it answers `AllocError`: that takes no room, and so a number or
//! this error is handed back in registers.

ghost use Rattle.std.specs.Prelude.{◌≡◌, ◌-◌, ◌^◌, ◌<◌, [], ◌∷◌, IfOk, length};
ghost use Rattle.std.specs.Prelude.{map, min};
ghost use Rattle.std.specs.Prelude.{take, None};
ghost use Rattle.sx_term.specs.Tree.{node, lexeme, hole, forest, greatest_depth, total_size};
ghost use Rattle.sx_arena.specs.Arena.{trees, tree_at, cell_tree, IsArena, IsCell, AreBelow};
ghost use Rattle.sx_arena.specs.Arena.{IsNewCell, IsTermPlace, IsCellRead, IsHeld};
ghost use Rattle.sx_arena.specs.Hashed.{mixed, hash_of};

use crate::cells::Cells;
use crate::shape::{Kids, Shape, hash, node_hash};
use std::alloc::{AllocError, Global};
use sx_term::{LexKind, NoMemory, Text};

/// A term's shape, by which it is found, with its depth and its size, or the greatest number where
/// it is more.
#[derive(PartialEq, Eq, Drop)]
pub struct Cell {
    pub shape: Shape,
    pub depth: u64,
    pub size: u64,
}

/// The greatest depth of some terms, and their sizes together, or the greatest number where it is
/// more.
#[derive(Clone, Copy)]
pub(crate) struct Extent {
    pub(crate) depth: u64,
    pub(crate) size: u64,
}

/// The terms.
#[derive(Drop)]
pub struct Arena {
    pub cells: Cells,
}

impl Arena {
    /// No terms.
    pub fn new(alloc: Global) -> Arena
        ensures arena { IsArena result }
        ensures none { trees result ≡ [] }
    {
        Arena {
            cells: Cells::new(alloc),
        }
    }

    /// How many terms there are.
    pub fn len(&self) -> usize
        ensures { result ≡ length (trees self.now) }
    {
        self.cells.len()
    }

    /// Drops the terms past the first so many.
    pub fn cut(&mut self, length: usize)
        ensures trees { trees self.new ≡ take length (trees self.old) }
        ensures arena { IsArena self.old → IsArena self.new }
    {
        self.cells.truncate(length);
    }

    /// The number of the term with this cell, whose shape has this hash, or None where it is none
    /// of the terms.
    fn found(&self, cell: &Cell, hash: u64) -> Option<usize>
        requires arena { IsArena self.now }
        requires cell { IsCell (trees self.now) cell.now }
        requires hash { hash ≡ hash_of cell.now.shape }
        ensures { IsTermPlace (trees self.now) (cell_tree (trees self.now) cell.now) result }
    {
        self.cells.find(&cell.shape, hash)
    }

    /// The number of the node with these kids, of which this is the hash, or None where it is none
    /// of the terms.
    #[inline(always)]
    fn found_node(&self, label: u32, kids: &[usize], hash: u64) -> Option<usize>
        requires arena { IsArena self.now }
        requires kids { AreBelow (length (trees self.now)) kids.now }
        requires hash { hash ≡ mixed label kids.now }
        ensures { IsTermPlace (trees self.now)
            (node label (forest (map (tree_at (trees self.now)) kids.now))) result }
    {
        self.cells.find_node(label, kids, hash)
    }

    /// The number of a new term, of which this is the cell, whose shape has this hash.
    #[inline(always)]
    fn add(&mut self, cell: Cell, hash: u64) -> Result<usize, AllocError>
        requires arena { IsArena self.old }
        requires cell { IsNewCell (trees self.old) cell }
        requires hash { hash ≡ hash_of cell.shape }
        ensures { IfOk result (λ i. IsHeld self.old self.new i (cell_tree (trees self.old) cell)) }
    {
        let index = self.cells.len();
        self.cells.push(cell, hash)?;
        Ok(index)
    }

    /// The number of the term with this cell.
    fn put(&mut self, cell: Cell) -> Result<usize, NoMemory>
        requires arena { IsArena self.old }
        requires cell { IsCell (trees self.old) cell }
        ensures { IfOk result (λ i. IsHeld self.old self.new i (cell_tree (trees self.old) cell)) }
    {
        let hash = hash(&cell.shape);
        match self.found(&cell, hash) {
            Some(index) => {
                drop(cell);
                Ok(index)
            }
            None => Ok(self.add(cell, hash)?),
        }
    }

    /// The cell at this number.
    #[inline(always)]
    pub fn cell(&self, index: usize) -> &Cell
        requires arena { IsArena self.now }
        requires within { index < length (trees self.now) }
        ensures { IsCellRead (trees self.now) index result.now }
    {
        self.cells.get(index)
    }

    /// The greatest depth of the terms, and their sizes together.
    #[inline(always)]
    pub(crate) fn extent_of(&self, kids: &[usize]) -> Extent
        requires arena { IsArena self.now }
        requires kids { AreBelow (length (trees self.now)) kids.now }
        ensures depth { result.depth
            ≡ min (greatest_depth (forest (map (tree_at (trees self.now)) kids.now))) (2 ^ 64 - 1) }
        ensures size { result.size
            ≡ min (total_size (forest (map (tree_at (trees self.now)) kids.now))) (2 ^ 64 - 1) }
    {
        let mut most: u64 = 0;
        let mut total: u64 = 0;
        for kid in kids {
            let cell = self.cell(*kid);
            most = most.max(cell.depth);
            total = total.saturating_add(cell.size);
        }
        Extent {
            depth: most,
            size: total,
        }
    }

    /// The number of a new node with these kids, of which this is the hash.
    #[inline(always)]
    fn add_node(&mut self, label: u32, kids: Kids, hash: u64) -> Result<usize, AllocError>
        requires arena { IsArena self.old }
        requires kids { AreBelow (length (trees self.old)) kids.items }
        requires hash { hash ≡ mixed label kids.items }
        requires new { IsTermPlace (trees self.old)
            (node label (forest (map (tree_at (trees self.old)) kids.items))) None }
        ensures { IfOk result (λ i. IsHeld self.old self.new i
            (node label (forest (map (tree_at (trees self.old)) kids.items)))) }
    {
        let below = self.extent_of(kids.as_slice());
        let cell = Cell {
            shape: Shape::Node { label, kids },
            depth: below.depth.saturating_add(1),
            size: below.size.saturating_add(1),
        };
        self.add(cell, hash)
    }

    /// The number of the node with these kids.
    pub(crate) fn node_of_list(&mut self, label: u32, kids: Vec<usize>) -> Result<usize, AllocError>
        requires arena { IsArena self.old }
        requires kids { AreBelow (length (trees self.old)) kids.items }
        ensures { IfOk result (λ i. IsHeld self.old self.new i
            (node label (forest (map (tree_at (trees self.old)) kids.items)))) }
    {
        let hash = node_hash(label, kids.as_slice());
        match self.found_node(label, kids.as_slice(), hash) {
            Some(index) => Ok(index),
            None => self.add_node(label, Kids::from_vec(kids), hash),
        }
    }

    /// The number of the node with these kids.
    pub fn node(&mut self, label: u32, kids: Vec<usize>) -> Result<usize, NoMemory>
        requires arena { IsArena self.old }
        requires kids { AreBelow (length (trees self.old)) kids.items }
        ensures { IfOk result (λ i. IsHeld self.old self.new i
            (node label (forest (map (tree_at (trees self.old)) kids.items)))) }
    {
        Ok(self.node_of_list(label, kids)?)
    }

    /// The number of a new node with this kid, of which this is the hash. How many kids there are
    /// is known where this is compiled, so that the cell is made without a loop.
    #[inline(never)]
    fn add_node_of_one(
        &mut self,
        alloc: Global,
        label: u32,
        kid: usize,
        hash: u64,
    ) -> Result<usize, AllocError>
        requires arena { IsArena self.old }
        requires kids { AreBelow (length (trees self.old)) (kid ∷ []) }
        requires hash { hash ≡ mixed label (kid ∷ []) }
        requires new { IsTermPlace (trees self.old)
            (node label (forest (map (tree_at (trees self.old)) (kid ∷ [])))) None }
        ensures { IfOk result (λ i. IsHeld self.old self.new i
            (node label (forest (map (tree_at (trees self.old)) (kid ∷ []))))) }
    {
        self.add_node(label, Kids::from_slice(alloc, &[kid])?, hash)
    }

    /// The number of a new node with these two kids, of which this is the hash. It is made as that
    /// of one kid.
    #[inline(never)]
    fn add_node_of_two(
        &mut self,
        alloc: Global,
        label: u32,
        left: usize,
        right: usize,
        hash: u64,
    ) -> Result<usize, AllocError>
        requires arena { IsArena self.old }
        requires kids { AreBelow (length (trees self.old)) (left ∷ right ∷ []) }
        requires hash { hash ≡ mixed label (left ∷ right ∷ []) }
        requires new { IsTermPlace (trees self.old)
            (node label (forest (map (tree_at (trees self.old)) (left ∷ right ∷ [])))) None }
        ensures { IfOk result (λ i. IsHeld self.old self.new i
            (node label (forest (map (tree_at (trees self.old)) (left ∷ right ∷ []))))) }
    {
        self.add_node(label, Kids::from_slice(alloc, &[left, right])?, hash)
    }

    /// The number of the node with this kid.
    #[inline(always)]
    pub(crate) fn node_of_one(
        &mut self,
        alloc: Global,
        label: u32,
        kid: usize,
    ) -> Result<usize, AllocError>
        requires arena { IsArena self.old }
        requires kids { AreBelow (length (trees self.old)) (kid ∷ []) }
        ensures { IfOk result (λ i. IsHeld self.old self.new i
            (node label (forest (map (tree_at (trees self.old)) (kid ∷ []))))) }
    {
        let hash = node_hash(label, &[kid]);
        match self.found_node(label, &[kid], hash) {
            Some(index) => Ok(index),
            None => self.add_node_of_one(alloc, label, kid, hash),
        }
    }

    /// The number of the node with these two kids.
    #[inline(always)]
    pub(crate) fn node_of_two(
        &mut self,
        alloc: Global,
        label: u32,
        left: usize,
        right: usize,
    ) -> Result<usize, AllocError>
        requires arena { IsArena self.old }
        requires kids { AreBelow (length (trees self.old)) (left ∷ right ∷ []) }
        ensures { IfOk result (λ i. IsHeld self.old self.new i
            (node label (forest (map (tree_at (trees self.old)) (left ∷ right ∷ []))))) }
    {
        let hash = node_hash(label, &[left, right]);
        match self.found_node(label, &[left, right], hash) {
            Some(index) => Ok(index),
            None => self.add_node_of_two(alloc, label, left, right, hash),
        }
    }

    /// The number of the lexeme.
    pub fn lexeme(&mut self, alloc: Global, kind: LexKind, text: &Text) -> Result<usize, NoMemory>
        requires arena { IsArena self.old }
        ensures { IfOk result (λ i. IsHeld self.old self.new i (lexeme kind text.now)) }
    {
        let text = String::from_str(alloc, text.as_str())?;
        self.put(Cell {
            shape: Shape::Lex { kind, text },
            depth: 1,
            size: 1,
        })
    }

    /// The number of the variable.
    pub fn variable(&mut self, variable: u32) -> Result<usize, NoMemory>
        requires arena { IsArena self.old }
        ensures { IfOk result (λ i. IsHeld self.old self.new i (hole variable)) }
    {
        self.put(Cell {
            shape: Shape::Var(variable),
            depth: 1,
            size: 1,
        })
    }
}
