//! The first places of names, found by their hash.

ghost use Rattle.std.specs.Prelude.{◌≡◌, ◌↔◌, IsTrue, ℕ, List, ◌++◌, [], ◌∷◌, length, take};
ghost use Rattle.std.specs.Prelude.{Contains, OnOk};
ghost use Rattle.std.specs.HashMap.{get_by_text};
ghost use Rattle.sx_outline.specs.Tables.{ArePlaces};

use std::alloc::Global;
use std::collections::HashMap;
use sx_term::{NoMemory, Text};

/// Names, each with the first place at which it stands.
#[derive(Drop)]
pub(crate) struct Places {
    entries: HashMap<String, usize>,
}

impl Places {
    /// No names. It takes no memory.
    pub(crate) fn new(alloc: Global) -> Places
        ensures { ArePlaces [] result }
    {
        Places {
            entries: HashMap::new(alloc),
        }
    }

    /// The first place of the name with these characters.
    pub(crate) fn place_of(&self, name: &str) -> Option<usize>
        ensures { result ≡ get_by_text self.now.entries name.now }
    {
        self.entries.get(name).copied()
    }

    /// The first place of the name.
    pub(crate) fn place(&self, name: &Text) -> Option<usize>
        ensures { result ≡ get_by_text self.now.entries name.now }
    {
        self.place_of(name.as_str())
    }

    /// Whether the name stands among the first of the names, so many.
    pub(crate) fn is_before(&self, count: usize, name: &Text) -> bool
        ensures { (names : List (List ℕ)) → ArePlaces names self.now →
            IsTrue result ↔ Contains (take count names) name.now }
    {
        match self.place(name) {
            Some(place) => place < count,
            None => false,
        }
    }

    /// Adds a name at its place, which is that after all others.
    pub(crate) fn push(&mut self, alloc: Global, name: &Text, place: usize) -> Result<(), NoMemory>
        ensures { OnOk result ((names : List (List ℕ)) → ArePlaces names self.old →
            place ≡ length names → ArePlaces (names ++ name.now ∷ []) self.new) }
    {
        if self.place(name).is_some() {
            return Ok(());
        }
        let key = String::from_str(alloc, name.as_str())?;
        self.entries.insert(key, place)?;
        Ok(())
    }
}
