//! Languages, and modules of them.

use std::alloc::Global;
use sx_outside::{MemShelf, MemSink};
use tests_runs::files::{holds, holds_module, lack, put, put_module};
use tests_runs::run::ends;

/// A language: its file, the header of a module of it, which is called Main, and the two parts of
/// its text.
#[derive(Clone, Copy)]
pub struct Language {
    pub file: &'static str,
    pub header: &'static [u8],
    pub text: [&'static [u8]; 2],
}

impl Language {
    /// Puts the language and a module of it with this body; whether memory was there for that.
    pub fn put(&self, alloc: Global, body: &[u8], shelf: &mut MemShelf) -> bool {
        put(alloc, self.file, &self.text, shelf) && put_module(alloc, self.header, body, shelf)
    }

    /// Whether a module with this body is built with this line, this list and this printed body.
    pub fn builds(
        &self,
        alloc: Global,
        body: &[u8],
        list: &[u8],
        base: &[u8],
        told: &[u8],
    ) -> bool {
        let mut shelf = MemShelf::new(alloc);
        let mut out = MemSink::new(alloc);
        let is = self.put(alloc, body, &mut shelf)
            && ends(alloc, "build Main", &mut shelf, &mut out, 0, told)
            && holds_module(alloc, self.header, base, &shelf)
            && holds(alloc, "Main.der", list, &shelf);
        drop(out);
        drop(shelf);
        is
    }

    /// Whether a module with this body ends so, with this line, and nothing is written.
    pub fn stops(&self, alloc: Global, line: &str, body: &[u8], code: u8, told: &[u8]) -> bool {
        let mut shelf = MemShelf::new(alloc);
        let mut out = MemSink::new(alloc);
        let is = self.put(alloc, body, &mut shelf)
            && ends(alloc, line, &mut shelf, &mut out, code, told)
            && lack(alloc, &["Main.base", "Main.der", "Main.int"], &shelf);
        drop(out);
        drop(shelf);
        is
    }
}
