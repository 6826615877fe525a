//! Bindings of variables to terms of an arena, as chains that share what they have in common.

ghost use Rattle.std.specs.Prelude.{◌≡◌, ◌+◌, ◌≤◌, ◌<◌, List, [], ◌∷◌, ◌++◌, IfOk, OnOk, length};
ghost use Rattle.std.specs.Prelude.{take};
ghost use Rattle.sx_term.specs.Tree.{Tree};
ghost use Rattle.sx_arena.specs.Grown.{Extends};
ghost use Rattle.sx_arena.specs.Binds.{envs, env_at, IsBinds, IsBoundTerm};

use std::alloc::Global;
use sx_term::NoMemory;

/// A variable that is bound to a term, and the chain before it.
#[derive(Clone, Copy)]
pub struct Bind {
    pub variable: u32,
    pub term: usize,
    pub before: usize,
}

/// Chains of bindings. The chain 0 binds nothing, and the chain n + 1 ends with the cell n.
#[derive(Drop)]
pub struct Binds {
    pub cells: Vec<Bind>,
}

impl Binds {
    /// No chain but the empty one.
    pub fn new(alloc: Global) -> Binds
        ensures { result.cells.items ≡ [] }
    {
        Binds {
            cells: Vec::new(alloc),
        }
    }

    /// The chain with one more binding.
    pub fn push(&mut self, before: usize, variable: u32, term: usize) -> Result<usize, NoMemory>
        ensures items { OnOk result (self.new.cells.items ≡ self.old.cells.items
            ++ record { variable = variable; term = term; before = before } ∷ []) }
        ensures chain { IfOk result (λ e. e ≡ length self.old.cells.items + 1) }
    {
        self.cells.push(Bind {
            variable,
            term,
            before,
        })?;
        Ok(self.cells.len())
    }

    /// Drops the bindings past the first so many.
    pub fn cut(&mut self, length: usize)
        ensures items { self.new.cells.items ≡ take length self.old.cells.items }
        ensures binds { (ts : List Tree) → IsBinds ts self.old →
            IsBinds ts self.new × Extends (envs ts self.new) (envs ts self.old) }
    {
        self.cells.truncate(length);
    }

    /// The term that a chain binds the variable to.
    pub fn find(&self, env: usize, variable: usize) -> Option<usize>
        requires binds { (ts : List Tree) × IsBinds ts self.now }
        requires env { env ≤ length self.now.cells.items }
        ensures { (ts : List Tree) → IsBinds ts self.now →
            IsBoundTerm ts (env_at (envs ts self.now) env variable) result }
    {
        let mut here = env;
        while here > 0 {
            let bind = self.cells[here - 1];
            if bind.variable as usize == variable {
                return Some(bind.term);
            }
            here = bind.before;
        }
        None
    }
}
