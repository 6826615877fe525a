//! All that a search makes: terms, bindings, proofs and frames.

ghost use Rattle.std.specs.Prelude.{List};
ghost use Rattle.sx_rules.specs.Rules.{Rule};
ghost use Rattle.sx_rules.specs.Modes.{Modes};
ghost use Rattle.sx_derive.specs.Store.{IsStore, IsMark, IsChainsCut, IsStoreCut};

use crate::chains::{Kid, Waiting};
use std::alloc::Global;
use sx_arena::{Arena, Binds};

/// The terms, bindings, proofs and frames of a search, and the number of the frame at which answers
/// are handed out; 0 where they are handed to all frames that wait.
#[derive(Drop)]
pub struct Store {
    pub(crate) arena: Arena,
    pub(crate) binds: Binds,
    pub(crate) kids: Vec<Kid>,
    pub(crate) frames: Vec<Waiting>,
    pub(crate) until: usize,
}

/// Where a store ends: numbers of terms, bindings, proofs and frames.
#[derive(Clone, Copy)]
pub struct Mark {
    pub(crate) terms: usize,
    pub(crate) binds: usize,
    pub(crate) kids: usize,
    pub(crate) frames: usize,
}

impl Store {
    /// Nothing yet.
    pub fn new(alloc: Global) -> Store
        ensures { (modes : Modes) (rules : List Rule) → IsStore modes rules result }
    {
        Store {
            arena: Arena::new(alloc),
            binds: Binds::new(alloc),
            kids: Vec::new(alloc),
            frames: Vec::new(alloc),
            until: 0,
        }
    }

    /// Where the store ends.
    pub(crate) fn mark(&self) -> Mark
        ensures { IsMark self.now result }
    {
        Mark {
            terms: self.arena.len(),
            binds: self.binds.cells.len(),
            kids: self.kids.len(),
            frames: self.frames.len(),
        }
    }

    /// Drops what the chains have past the mark; the terms stay.
    pub(crate) fn cut_chains(&mut self, mark: Mark)
        ensures { IsChainsCut mark self.old self.new }
    {
        self.binds.cut(mark.binds);
        self.kids.truncate(mark.kids);
        self.frames.truncate(mark.frames);
    }

    /// Drops what the store has past the mark.
    pub(crate) fn cut(&mut self, mark: Mark)
        ensures { IsStoreCut mark self.old self.new }
    {
        self.arena.cut(mark.terms);
        self.cut_chains(mark);
    }
}
