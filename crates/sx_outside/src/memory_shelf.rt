//! Files in memory, whose calls fail where a test says so.

ghost use Rattle.std.specs.Prelude.{◌≡◌, ◌≢◌, ◌≤◌, Some, None, MatchOption, OnOk, OnErr};
ghost use Rattle.sx_outside.specs.Files.{put};
ghost use Rattle.sx_outside.specs.Table.{files_in};
ghost use Rattle.sx_outside.specs.Faults.{Rose};
ghost use Rattle.sx_outside.specs.Calls.{failing_at};
ghost use Rattle.sx_outside.specs.Shelf.{IsFileReading, IsWriting};
ghost use Rattle.sx_outside.specs.Kinds.{new_shelf, IsShelfRead, IsShelfWritten};

use crate::calls::{Calls, next};
use crate::table::Table;
use crate::{ReadAnswer, Shelf, WriteAnswer};
use std::alloc::Global;
use sx_term::{NoMemory, Text};

/// Files in memory, whose calls fail where a test says so.
#[derive(Drop)]
pub struct MemShelf {
    table: Table,
    calls: Calls,
    reads_failed: u64,
    writes_failed: u64,
}

impl MemShelf {
    ghost use Rattle.sx_outside.specs.Views.{shelf_of};

    /// No files, no faults, and no calls that are to fail.
    pub fn new(alloc: Global) -> MemShelf
        ensures { shelf_of result ≡ new_shelf }
    {
        MemShelf {
            table: Table::new(alloc),
            calls: Calls::new(alloc),
            reads_failed: 0,
            writes_failed: 0,
        }
    }

    /// Lets just these calls fail, counted from 1 over all reads and writes of the shelf.
    pub fn fail(&mut self, calls: Vec<u64>)
        ensures { shelf_of self.new ≡ record (shelf_of self.old) {
          calls = failing_at (shelf_of self.old).calls calls.items;
        } }
    {
        self.calls.fail(calls);
    }

    /// Sets the bytes of a name. This is no call of the shelf.
    pub fn put(&mut self, name: Text, bytes: Vec<u8>) -> Result<(), NoMemory>
        ensures ok { OnOk result (shelf_of self.new
            ≡ record (shelf_of self.old) {
              files =
                  put (shelf_of self.old).files name bytes.items;
            }) }
        ensures err { OnErr result (shelf_of self.new ≡ shelf_of self.old) }
    {
        self.table.put(&name, bytes)
    }

    /// The bytes of a name, or None where it is not held.
    pub fn get(&self, name: &Text) -> Option<&[u8]>
        ensures { MatchOption result ((shelf_of self.now).files name.now ≡ None)
            (λ bytes. (shelf_of self.now).files name.now ≡ Some bytes.now) }
    {
        self.table.get(name)
    }
}

impl Shelf for MemShelf {
    ghost use Rattle.sx_outside.specs.Views.{shelf_of};

    ghost content = { λ shelf. Some (files_in shelf.table.entries) };

    ghost read_faults = { λ shelf. shelf.reads_failed };

    ghost write_faults = { λ shelf. shelf.writes_failed };

    fn read(&mut self, name: &Text, limit: u32, into: &mut Vec<u8>) -> ReadAnswer
        ensures answer { IsFileReading
            (Some (shelf_of self.old).files) name.now limit result into.new.items }
        ensures content { (shelf_of self.new).files ≡ (shelf_of self.old).files }
        ensures faults { (shelf_of self.old).read_faults ≤ (shelf_of self.new).read_faults }
        ensures write_faults { (shelf_of self.new).write_faults ≡ (shelf_of self.old).write_faults }
        ensures cause { result ≡ ReadAnswer.Failed →
            Rose (shelf_of self.old).read_faults (shelf_of self.new).read_faults }
        ensures only { result ≢ ReadAnswer.Failed →
            (shelf_of self.new).read_faults ≡ (shelf_of self.old).read_faults }
        ensures reads { IsShelfRead (shelf_of self.old) (shelf_of self.new) result }
    {
        into.clear();
        if self.calls.call() {
            self.reads_failed = next(self.reads_failed);
            return ReadAnswer::Failed;
        }
        self.table.read(name, limit, into)
    }

    fn write(&mut self, name: &Text, bytes: &[u8]) -> WriteAnswer
        ensures answer { IsWriting (Some (shelf_of self.old).files) name.now bytes.now result
            (Some (shelf_of self.new).files) }
        ensures faults { (shelf_of self.old).write_faults ≤ (shelf_of self.new).write_faults }
        ensures read_faults { (shelf_of self.new).read_faults ≡ (shelf_of self.old).read_faults }
        ensures cause { result ≡ WriteAnswer.Failed →
            Rose (shelf_of self.old).write_faults (shelf_of self.new).write_faults }
        ensures only { result ≢ WriteAnswer.Failed →
            (shelf_of self.new).write_faults ≡ (shelf_of self.old).write_faults }
        ensures writes { IsShelfWritten (shelf_of self.old)
            (shelf_of self.new) name.now bytes.now result }
    {
        if self.calls.call() {
            let half = bytes.len() / 2;
            return match self.table.put_copy(name, &bytes[..half]) {
                Ok(()) => {
                    self.writes_failed = next(self.writes_failed);
                    WriteAnswer::Failed
                }
                Err(_) => WriteAnswer::NoMemory,
            };
        }
        match self.table.put_copy(name, bytes) {
            Ok(()) => WriteAnswer::Done,
            Err(_) => WriteAnswer::NoMemory,
        }
    }
}
