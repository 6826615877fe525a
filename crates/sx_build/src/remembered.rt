//! Interfaces of modules that were made, once they were read.

ghost use Rattle.std.specs.Prelude.{◌≡◌, ℕ, List, None};
ghost use Rattle.std.specs.List.{AllByRecursion};
ghost use Rattle.sx_build.specs.MadeModules.{Made};
ghost use Rattle.sx_build.specs.Remembering.{remembered_imports, IsGone, IsInterfaceKept};
ghost use Rattle.sx_build.specs.Remembering.{IsOwnImport, Remembers};

use std::alloc::Global;
use std::collections::HashMap;
use sx_interface::Import;
use sx_term::Text;

/// The interfaces of modules that were made, with their digests, by the names of the modules: those
/// that were read.
#[derive(Drop)]
pub(crate) struct Remembered {
    alloc: Global,
    imports: HashMap<String, Import>,
}

impl Remembered {
    /// None. It takes no memory.
    pub(crate) fn new(alloc: Global) -> Remembered
        ensures { (name : List ℕ) → remembered_imports result name ≡ None }
    {
        Remembered {
            alloc,
            imports: HashMap::new(alloc),
        }
    }

    /// Takes out the interface of the module with this name.
    pub(crate) fn take(&mut self, name: &Text) -> Option<Import>
        ensures value { result ≡ remembered_imports self.old name.now }
        ensures others { IsGone name.now (remembered_imports self.old)
            (remembered_imports self.new) }
    {
        self.imports.remove(name.as_str())
    }

    /// Keeps the interface under the name of its module. Where memory lacks it is let go: then it
    /// is read again.
    pub(crate) fn keep(&mut self, import: Import)
        ensures { IsInterfaceKept import (remembered_imports self.old)
            (remembered_imports self.new) }
    {
        match String::from_str(self.alloc, import.interface.module.as_str()) {
            Ok(name) => {
                let _ = self.imports.insert(name, import);
            }
            Err(_) => drop(import),
        }
    }

    /// Keeps the interfaces, each under the name of its module.
    pub(crate) fn keep_all(&mut self, imports: Vec<Import>)
        ensures { (mades : List Made) → Remembers mades (remembered_imports self.old) →
            AllByRecursion (IsOwnImport mades) imports.items → Remembers mades
            (remembered_imports self.new) }
    {
        for import in imports {
            self.keep(import);
        }
    }
}
