//! Files in a hash map.

ghost use Rattle.std.specs.Prelude.{◌≡◌, ◌≢◌, [], MatchOption, None, Some, OnOk, OnErr};
ghost use Rattle.sx_outside.specs.Files.{put, no_files};
ghost use Rattle.sx_outside.specs.Shelf.{IsFileReading};

use crate::ReadAnswer;
use std::alloc::Global;
use std::collections::HashMap;
use sx_term::{NoMemory, Text};

/// Bytes under names.
#[derive(Drop)]
pub struct Table {
    alloc: Global,
    entries: HashMap<String, Vec<u8>>,
}

impl Table {
    ghost use Rattle.sx_outside.specs.Views.{files_of};

    /// No files.
    pub fn new(alloc: Global) -> Table
        ensures { files_of result ≡ no_files }
    {
        Table {
            alloc,
            entries: HashMap::new(alloc),
        }
    }

    /// Puts the bytes under the name, in place of those that stood there.
    pub fn put(&mut self, name: &Text, bytes: Vec<u8>) -> Result<(), NoMemory>
        ensures ok { OnOk result (files_of self.new
            ≡ put (files_of self.old) name.now bytes.items) }
        ensures err { OnErr result (files_of self.new ≡ files_of self.old) }
    {
        let key = String::from_str(self.alloc, name.as_str())?;
        self.entries.insert(key, bytes)?;
        Ok(())
    }

    /// Puts a copy of the bytes under the name, in place of those that stood there.
    pub fn put_copy(&mut self, name: &Text, bytes: &[u8]) -> Result<(), NoMemory>
        ensures ok { OnOk result (files_of self.new ≡ put (files_of self.old) name.now bytes.now) }
        ensures err { OnErr result (files_of self.new ≡ files_of self.old) }
    {
        let copy = Vec::from_slice(self.alloc, bytes)?;
        self.put(name, copy)
    }

    /// The bytes under the name.
    pub fn get(&self, name: &Text) -> Option<&[u8]>
        ensures { MatchOption result (files_of self.now name.now ≡ None)
            (λ bytes. files_of self.now name.now ≡ Some bytes.now) }
    {
        match self.entries.get(name.as_str()) {
            Some(bytes) => Some(bytes.as_slice()),
            None => None,
        }
    }

    /// Reads the bytes under the name, at most `limit` of them, into an empty vector.
    pub fn read(&self, name: &Text, limit: u32, into: &mut Vec<u8>) -> ReadAnswer
        requires { into.old.items ≡ [] }
        ensures answer { IsFileReading (Some (files_of self.now)) name.now limit result
            into.new.items }
        ensures never { result ≢ ReadAnswer.Failed }
    {
        match self.get(name) {
            None => ReadAnswer::Absent,
            Some(bytes) => {
                if bytes.len() > limit as usize {
                    return ReadAnswer::TooLong;
                }
                match into.extend_from_slice(bytes) {
                    Ok(()) => ReadAnswer::Found,
                    Err(_) => ReadAnswer::NoMemory,
                }
            }
        }
    }
}
