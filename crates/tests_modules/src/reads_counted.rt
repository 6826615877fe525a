//! The reads of builds: the file of an extension that several modules use is read once.

ghost use Rattle.std.specs.Prelude.{None};

use crate::planning::planned_main;
use crate::scenes::file;
use std::alloc::Global;
use sx_outside::{CleanShelf, ReadAnswer, Shelf, WriteAnswer};
use sx_term::{NoMemory, Text};
use tests_given::File;
use tests_given::extensions::{LET, LOUD, SHOW};
use tests_given::languages::LAM;

/// Files in memory, and the names that were read of them, in order, each with a line feed.
#[derive(Drop)]
struct ReadShelf {
    files: CleanShelf,
    read: Vec<u8>,
}

impl Shelf for ReadShelf {
    ghost content = { λ _. None };

    ghost read_faults = { λ _. 0 };

    ghost write_faults = { λ _. 0 };

    fn read(&mut self, name: &Text, limit: u32, into: &mut Vec<u8>) -> ReadAnswer {
        match add_line(name, &mut self.read) {
            Ok(()) => self.files.read(name, limit, into),
            Err(_) => {
                into.clear();
                ReadAnswer::NoMemory
            }
        }
    }

    fn write(&mut self, name: &Text, bytes: &[u8]) -> WriteAnswer {
        self.files.write(name, bytes)
    }
}

/// Adds the name with a line feed.
fn add_line(name: &Text, lines: &mut Vec<u8>) -> Result<(), NoMemory> {
    lines.extend_from_slice(name.bytes())?;
    lines.push(b'\n')?;
    Ok(())
}

/// Puts the file on the shelf.
fn put_file(alloc: Global, file: &File, shelf: &mut CleanShelf) -> Result<(), NoMemory> {
    let bytes = Vec::from_slice(alloc, file.text)?;
    match Text::make(alloc, file.name.as_bytes()) {
        Ok(name) => shelf.put(name, bytes),
        Err(_) => {
            drop(bytes);
            Err(NoMemory::Memory)
        }
    }
}

/// Puts the files on the shelf; whether memory was there for that.
fn put_files(alloc: Global, files: &[&File], shelf: &mut CleanShelf) -> bool {
    for file in files {
        if put_file(alloc, file, shelf).is_err() {
            return false;
        }
    }
    true
}

/// Whether `Main` has a plan, within 1,000 tries and 1,000 nodes.
fn plans(alloc: Global, shelf: &mut ReadShelf) -> bool {
    let answer = planned_main(alloc, 1000, shelf);
    let is = answer.is_ok();
    drop(answer);
    is
}

/// Whether `Main` of these files has a plan, and just the files with these names are read for it,
/// one after another.
fn reads(alloc: Global, files: &[&File], names: &[u8]) -> bool {
    let mut shelf = ReadShelf {
        files: CleanShelf::new(alloc),
        read: Vec::new(alloc),
    };
    let is = put_files(alloc, files, &mut shelf.files)
        && plans(alloc, &mut shelf)
        && shelf.read.as_slice() == names;
    drop(shelf);
    is
}

#[test]
fn an_extension_of_three_modules_is_read_once(rt: HostRuntime) {
    let alloc = rt.alloc();
    let b = file(
        "B.mod",
        b"module B\nlanguage Lam\nuse Let\n---\nlet x = 1 in x\n",
    );
    let a = file(
        "A.mod",
        b"module A\nlanguage Lam\nuse Let\nimport B\n---\nlet y = B in y\n",
    );
    let main = file(
        "Main.mod",
        b"module Main\nlanguage Lam\nuse Let\nimport A\nimport B\n---\nlet z = A in B\n",
    );
    let names = b"Main.mod\nA.mod\nB.mod\nLam.lang\nLet.ext\n";
    assert!(rt; reads(alloc, &[&LAM, &LET, &a, &b, &main], names));
}

#[test]
fn an_extension_that_another_uses_is_read_once(rt: HostRuntime) {
    let alloc = rt.alloc();
    let b = file("B.mod", b"module B\nlanguage Lam\nuse Show\n---\nshow 1\n");
    let main = file(
        "Main.mod",
        b"module Main\nlanguage Lam\nuse Loud\nuse Show\nimport B\n---\nB ++ loud 2\n",
    );
    let names = b"Main.mod\nB.mod\nLam.lang\nShow.ext\nLoud.ext\n";
    assert!(rt; reads(alloc, &[&LAM, &SHOW, &LOUD, &b, &main], names));
}
