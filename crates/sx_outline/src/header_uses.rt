//! The names that the first lines of an extension file use.

ghost use Rattle.std.specs.Prelude.{◌≡◌, [], IfOk, OnOk};
ghost use Rattle.sx_outline.specs.HeaderReading.{AreUsesFound, IsUseAdded};

use crate::places::Places;
use std::alloc::Global;
use sx_term::{NoMemory, Text};

/// Names in the order of their lines, found by their hash.
#[derive(Drop)]
pub(crate) struct HeaderUses {
    pub names: Vec<Text>,
    pub places: Places,
}

impl HeaderUses {
    /// No names. It takes no memory.
    pub(crate) fn new(alloc: Global) -> HeaderUses
        ensures none { result.names.items ≡ [] }
        ensures found { AreUsesFound result }
    {
        HeaderUses {
            names: Vec::new(alloc),
            places: Places::new(alloc),
        }
    }

    /// Adds a name, unless it stands there, and tells whether it was added.
    pub(crate) fn add(&mut self, alloc: Global, name: Text) -> Result<bool, NoMemory>
        requires { AreUsesFound self.now }
        ensures added { IfOk result (λ is_new.
            IsUseAdded self.old.names.items name is_new self.new.names.items) }
        ensures found { OnOk result (AreUsesFound self.new) }
    {
        if self.places.is_before(self.names.len(), &name) {
            drop(name);
            return Ok(false);
        }
        self.places.push(alloc, &name, self.names.len())?;
        self.names.push(name)?;
        Ok(true)
    }

    /// The names.
    pub(crate) fn into_names(self) -> Vec<Text>
        ensures { result.items ≡ self.names.items }
    {
        let HeaderUses { names, places } = self;
        drop(places);
        names
    }
}
