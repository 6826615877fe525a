//! The memory kinds whose calls never fail.

ghost use Rattle.std.specs.Prelude.{◌≡◌, Some, None, [], MatchOption, OnOk, OnErr};
ghost use Rattle.sx_outside.specs.Files.{put, no_files};
ghost use Rattle.sx_outside.specs.Table.{files_in};

use crate::rest::Rest;
use crate::table::Table;
use crate::{ReadAnswer, Shelf, Sink, Source, TakeAnswer, WriteAnswer};
use std::alloc::Global;
use std::marker::Model;
use sx_term::{NoMemory, Text};

/// Files in memory, whose calls don't fail.
#[derive(Drop)]
pub struct CleanShelf {
    table: Table,
}

impl CleanShelf {
    ghost use Rattle.sx_outside.specs.Views.{clean_files_of};

    /// No files.
    pub fn new(alloc: Global) -> CleanShelf
        ensures { clean_files_of result ≡ no_files }
    {
        CleanShelf {
            table: Table::new(alloc),
        }
    }

    /// Sets the bytes of a name.
    pub fn put(&mut self, name: Text, bytes: Vec<u8>) -> Result<(), NoMemory>
        ensures ok { OnOk result (clean_files_of self.new
            ≡ put (clean_files_of self.old) name bytes.items) }
        ensures err { OnErr result (clean_files_of self.new ≡ clean_files_of self.old) }
    {
        self.table.put(&name, bytes)
    }

    /// The bytes of a name, or None where it is not held.
    pub fn get(&self, name: &Text) -> Option<&[u8]>
        ensures { MatchOption result (clean_files_of self.now name.now ≡ None)
            (λ bytes. clean_files_of self.now name.now ≡ Some bytes.now) }
    {
        self.table.get(name)
    }
}

impl Shelf for CleanShelf {
    ghost content = { λ shelf. Some (files_in shelf.table.entries) };

    ghost read_faults = { λ _. 0 };

    ghost write_faults = { λ _. 0 };

    fn read(&mut self, name: &Text, limit: u32, into: &mut Vec<u8>) -> ReadAnswer {
        into.clear();
        self.table.read(name, limit, into)
    }

    fn write(&mut self, name: &Text, bytes: &[u8]) -> WriteAnswer {
        match self.table.put_copy(name, bytes) {
            Ok(()) => WriteAnswer::Done,
            Err(_) => WriteAnswer::NoMemory,
        }
    }
}

/// A sink in memory, whose writes don't fail.
#[derive(Drop)]
pub struct CleanSink {
    bytes: Vec<u8>,
}

impl Model for CleanSink {
    ghost use Rattle.std.specs.Prelude.{List, ℕ};

    ghost Value = { List ℕ };

    ghost view = { λ sink. sink.bytes.items };
}

impl CleanSink {
    /// Nothing written.
    pub fn new(alloc: Global) -> CleanSink
        ensures { result ≡ [] }
    {
        CleanSink {
            bytes: Vec::new(alloc),
        }
    }

    /// What was written.
    pub fn written(&self) -> &[u8]
        ensures { result.now ≡ self.now }
    {
        &self.bytes
    }
}

impl Sink for CleanSink {
    ghost content = { λ sink. Some sink };

    ghost faults = { λ _. 0 };

    fn write(&mut self, bytes: &[u8]) -> WriteAnswer {
        match self.bytes.extend_from_slice(bytes) {
            Ok(()) => WriteAnswer::Done,
            Err(_) => WriteAnswer::NoMemory,
        }
    }
}

/// A source in memory, whose takes don't fail.
#[derive(Drop)]
pub struct CleanSource {
    rest: Rest,
}

impl Model for CleanSource {
    ghost use Rattle.std.specs.Prelude.{List, ℕ};

    ghost Value = { List ℕ };

    ghost view = { λ source. source.rest };
}

impl CleanSource {
    /// These bytes.
    pub fn new(bytes: Vec<u8>) -> CleanSource
        ensures { result ≡ bytes.items }
    {
        CleanSource {
            rest: Rest::new(bytes),
        }
    }
}

impl Source for CleanSource {
    ghost content = { λ source. Some source };

    ghost faults = { λ _. 0 };

    fn take(&mut self, into: &mut [u8]) -> TakeAnswer {
        self.rest.take(into)
    }
}
