//! The names of variables.

ghost use Rattle.std.specs.Prelude.{◌≡◌, ◌+◌, ◌-◌, ◌^◌, ◌<◌, ◌≤◌, [], length, slice_get};
ghost use Rattle.std.specs.Prelude.{option_copied, IfOk, OnErr, take};
ghost use Rattle.sx_term.specs.Cutting.{AreDistinct};
ghost use Rattle.sx_term.specs.Vars.{IsAdded};

use crate::no_memory::NoMemory;
use crate::text::Text;
use indexmap::IndexSet;
use std::alloc::Global;
use std::marker::Model;

/// A list of distinct texts: the names of variables 0, 1, 2 and so on. A name is found by its hash.
#[derive(Drop)]
pub struct Vars {
    names: IndexSet<Text>,
}

impl Model for Vars {
    ghost use Rattle.std.specs.Prelude.{List, ℕ};
    ghost use Rattle.std.specs.Str.{bytes_eq};
    ghost use Rattle.indexmap.specs.IndexSet.{IsUnique};

    ghost Value = { List (List ℕ) };

    ghost view = { λ v. v.names.keys };

    ghost invariant = { λ v. IsUnique bytes_eq v.names };
}

impl Vars {
    /// The list without names. It takes no memory.
    pub fn new(alloc: Global) -> Vars
        ensures { result ≡ [] }
    {
        Vars {
            names: IndexSet::new(alloc),
        }
    }

    /// The number of the name, which is added last where it is not there. There are fewer than
    /// 2^32 - 1 names. The one refusal is out of memory, after which the names are as before.
    pub fn add(&mut self, name: Text) -> Result<u32, NoMemory>
        requires { length self.old < 2 ^ 32 - 1 }
        ensures ok { IfOk result (λ number. IsAdded self.old self.new name number) }
        ensures err { OnErr result (self.new ≡ self.old) }
        ensures grows { length self.new ≤ length self.old + 1 }
        ensures distinct { AreDistinct self.new }
    {
        let (number, _) = self.names.insert_full(name)?;
        Ok(number as u32)
    }

    /// The number of a copy of the name, which is added last where it is not there. There are fewer
    /// than 2^32 - 1 names. The one refusal is out of memory, after which the names are as before.
    pub fn add_copy(&mut self, alloc: Global, name: &Text) -> Result<u32, NoMemory>
        requires { length self.old < 2 ^ 32 - 1 }
        ensures ok { IfOk result (λ number. IsAdded self.old self.new name.now number) }
        ensures err { OnErr result (self.new ≡ self.old) }
        ensures grows { length self.new ≤ length self.old + 1 }
        ensures distinct { AreDistinct self.new }
    {
        self.facts();
        self.add(name.copy(alloc)?)
    }

    /// The same names, fewer than 2^32. The one refusal is out of memory.
    pub fn copy(&self, alloc: Global) -> Result<Vars, NoMemory>
        requires { length self.now < 2 ^ 32 }
        ensures { IfOk result (λ names. names ≡ self.now) }
    {
        let mut copies = Vars::new(alloc);
        let mut number: u32 = 0;
        while let Some(name) = self.name(number) {
            match copies.add_copy(alloc, name) {
                Ok(_) => number += 1,
                Err(e) => {
                    drop(copies);
                    return Err(e);
                }
            }
        }
        Ok(copies)
    }

    /// The name of the variable with this number, or None where there is no such number.
    pub fn name(&self, number: u32) -> Option<&Text>
        ensures value { option_copied result ≡ slice_get self.now number }
        ensures distinct { AreDistinct self.now }
    {
        self.names.get_index(number as usize)
    }

    /// How many names there are.
    pub fn count(&self) -> usize
        ensures { result ≡ length self.now }
    {
        self.names.len()
    }

    /// Leaves the first names, so many as `count` says, or all where there are no more.
    pub fn cut(&mut self, count: usize)
        ensures { self.new ≡ take count self.old }
    {
        self.names.truncate(count);
    }

    /// What holds of every list of names: no name stands twice.
    fn facts(&self)
        ensures { AreDistinct self.now }
    {
        let _ = &self.names;
    }
}
