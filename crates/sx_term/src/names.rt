//! Names, found by their hash.

ghost use Rattle.std.specs.Prelude.{◌≡◌, ◌↔◌, ◌++◌, [], ◌∷◌, slice_get, position, Some, Contains};
ghost use Rattle.std.specs.Prelude.{MatchOption, IfOk, IsTrue};
ghost use Rattle.std.specs.Str.{bytes_eq};

use crate::no_memory::NoMemory;
use indexmap::IndexSet;
use std::alloc::Global;
use std::marker::Model;

/// A list of distinct names, which are any bytes, numbered from 0 in the order in which they came.
/// A name is found by its hash, whatever the number of names.
#[derive(Drop)]
pub struct Names {
    texts: IndexSet<Vec<u8>>,
}

impl Model for Names {
    ghost use Rattle.std.specs.Prelude.{List, ℕ, map};

    ghost Value = { List (List ℕ) };

    ghost view = { λ n. map (λ text. text.items) n.texts.keys };
}

impl Names {
    /// No names. It takes no memory.
    pub fn new(alloc: Global) -> Names
        ensures { result ≡ [] }
    {
        Names {
            texts: IndexSet::new(alloc),
        }
    }

    /// The number of the name, or None where it is none of the names.
    pub fn number(&self, name: &[u8]) -> Option<usize>
        ensures exact { MatchOption result (¬ (Contains self.now name.now))
            (λ n. slice_get self.now n ≡ Some name.now) }
        ensures first { result ≡ position (λ other. bytes_eq other name.now) self.now }
    {
        self.texts.get_index_of(name)
    }

    /// Whether the name is one of the names.
    pub fn has(&self, name: &[u8]) -> bool
        ensures { IsTrue result ↔ Contains self.now name.now }
    {
        self.texts.contains(name)
    }

    /// Adds a name that is none of the names. It is the last.
    pub fn push(&mut self, alloc: Global, name: &[u8]) -> Result<(), NoMemory>
        requires { ¬ (Contains self.old name.now) }
        ensures { IfOk result (λ _. self.new ≡ self.old ++ name.now ∷ []) }
    {
        self.texts.insert(Vec::from_slice(alloc, name)?)?;
        Ok(())
    }

    /// Equal names. The one refusal is out of memory.
    pub fn copy(&self) -> Result<Names, NoMemory>
        ensures { IfOk result (λ n. n ≡ self.now) }
    {
        Ok(Names {
            texts: self.texts.clone()?,
        })
    }
}
