//! Files by name.

ghost use Rattle.std.specs.Prelude.{◌≡◌, None, OnOk, is_some};
ghost use Rattle.std.specs.Option.{option_copied};
ghost use Rattle.sx_imports.specs.Walk.{Name};
ghost use Rattle.sx_walking.specs.FileTable.{table_files, IsFilePut, IsFileTaken};

use std::alloc::Global;
use std::collections::HashMap;
use sx_term::{NoMemory, Text};

/// Files by name.
#[derive(Drop)]
pub(crate) struct FileTable<F> {
    pub alloc: Global,
    pub files: HashMap<String, F>,
}

impl<F: Drop> FileTable<F> {
    /// No files. It takes no memory.
    pub fn new(alloc: Global) -> FileTable<F>
        ensures { (name : Name) → table_files result name ≡ None }
    {
        FileTable {
            alloc,
            files: HashMap::new(alloc),
        }
    }

    /// Whether the file with this name is there.
    pub fn has(&self, name: &Text) -> bool
        ensures { result ≡ is_some (table_files self.now name.now) }
    {
        self.files.contains_key(name.as_str())
    }

    /// Puts the file with this name.
    pub fn put(&mut self, name: &Text, file: F) -> Result<(), NoMemory>
        ensures { OnOk result (IsFilePut name.now file (table_files self.old)
            (table_files self.new)) }
    {
        let key = String::from_str(self.alloc, name.as_str())?;
        self.files.insert(key, file)?;
        Ok(())
    }

    /// The file with this name.
    pub fn get(&self, name: &Text) -> Option<&F>
        ensures { option_copied result ≡ table_files self.now name.now }
    {
        self.files.get(name.as_str())
    }

    /// Takes the file with this name out.
    pub fn take(&mut self, name: &Text) -> Option<F>
        ensures value { result ≡ table_files self.old name.now }
        ensures others { IsFileTaken name.now (table_files self.old) (table_files self.new) }
    {
        self.files.remove(name.as_str())
    }
}
