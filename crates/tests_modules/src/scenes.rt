//! Several runs, one after another, over the files of one shelf.

use std::alloc::Global;
use sx_outside::{MemShelf, MemSink};
use tests_given::File;
use tests_runs::files::{lack, put_files};
use tests_runs::run::ends;

/// The run of a command line: its exit code, and what its sink gets.
#[derive(Clone, Copy)]
pub struct Turn {
    pub line: &'static str,
    pub code: u8,
    pub told: &'static [u8],
}

/// A run that ends so.
pub fn ending(line: &'static str, code: u8, told: &'static [u8]) -> Turn {
    Turn { line, code, told }
}

/// A file with this text.
pub fn file(name: &'static str, text: &'static [u8]) -> File {
    File { name, text }
}

/// Whether the run ends so.
fn ends_so(alloc: Global, turn: &Turn, shelf: &mut MemShelf) -> bool {
    let mut out = MemSink::new(alloc);
    let is = ends(alloc, turn.line, shelf, &mut out, turn.code, turn.told);
    drop(out);
    is
}

/// Whether the runs end so, one after another.
pub fn all_end(alloc: Global, turns: &[Turn], shelf: &mut MemShelf) -> bool {
    for turn in turns {
        if !ends_so(alloc, turn, shelf) {
            return false;
        }
    }
    true
}

/// Whether the runs end so, one after another, over these files.
pub fn plays(alloc: Global, files: &[&File], turns: &[Turn]) -> bool {
    let mut shelf = MemShelf::new(alloc);
    let is = put_files(alloc, files, &mut shelf) && all_end(alloc, turns, &mut shelf);
    drop(shelf);
    is
}

/// Whether the runs end so, and then others after the file is put in the place of the one that has
/// its name.
pub fn plays_on(
    alloc: Global,
    files: &[&File],
    turns: &[Turn],
    other: &File,
    more: &[Turn],
) -> bool {
    let mut shelf = MemShelf::new(alloc);
    let is = put_files(alloc, files, &mut shelf)
        && all_end(alloc, turns, &mut shelf)
        && put_files(alloc, &[other], &mut shelf)
        && all_end(alloc, more, &mut shelf);
    drop(shelf);
    is
}

/// Whether the run of the command line over these files ends with this exit code and these lines.
pub fn tells(alloc: Global, files: &[&File], line: &str, code: u8, told: &[u8]) -> bool {
    let mut shelf = MemShelf::new(alloc);
    let mut out = MemSink::new(alloc);
    let is = put_files(alloc, files, &mut shelf)
        && ends(alloc, line, &mut shelf, &mut out, code, told);
    drop(out);
    drop(shelf);
    is
}

/// Whether the build of `Main` over these files ends so, and nothing is written.
pub fn stops(alloc: Global, files: &[&File], code: u8, told: &[u8]) -> bool {
    let mut shelf = MemShelf::new(alloc);
    let mut out = MemSink::new(alloc);
    let is = put_files(alloc, files, &mut shelf)
        && ends(alloc, "build Main", &mut shelf, &mut out, code, told)
        && lack(alloc, &["Main.base", "Main.der", "Main.int"], &shelf);
    drop(out);
    drop(shelf);
    is
}
