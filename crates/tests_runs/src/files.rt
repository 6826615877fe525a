//! Files that are put on a shelf before a run, and found on it after.

use std::alloc::Global;
use sx_outside::MemShelf;
use sx_term::Text;
use tests_given::File;

/// Puts the bytes under the name, and answers whether memory was there for that.
fn put_bytes(alloc: Global, name: &[u8], bytes: Vec<u8>, shelf: &mut MemShelf) -> bool {
    match Text::make(alloc, name) {
        Ok(name) => shelf.put(name, bytes).is_ok(),
        Err(_) => {
            drop(bytes);
            false
        }
    }
}

/// Appends the part, and answers whether memory was there for it.
pub fn append(part: &[u8], bytes: &mut Vec<u8>) -> bool {
    bytes.extend_from_slice(part).is_ok()
}

/// Appends the parts one after another, and answers whether memory was there for them.
pub fn join(parts: &[&[u8]], bytes: &mut Vec<u8>) -> bool {
    for part in parts {
        if !append(part, bytes) {
            return false;
        }
    }
    true
}

/// Puts the parts, one after another, under the name.
pub fn put(alloc: Global, name: &str, parts: &[&[u8]], shelf: &mut MemShelf) -> bool {
    put_under(alloc, name.as_bytes(), parts, shelf)
}

/// The same, under a name of these bytes.
pub fn put_under(alloc: Global, name: &[u8], parts: &[&[u8]], shelf: &mut MemShelf) -> bool {
    let mut bytes = Vec::new(alloc);
    if join(parts, &mut bytes) {
        put_bytes(alloc, name, bytes, shelf)
    } else {
        drop(bytes);
        false
    }
}

/// Puts the files, each in the place of one that has its name.
pub fn put_files(alloc: Global, files: &[&File], shelf: &mut MemShelf) -> bool {
    for file in files {
        if !put(alloc, file.name, &[file.text], shelf) {
            return false;
        }
    }
    true
}

/// Puts a module with this header and this body.
pub fn put_module(alloc: Global, header: &[u8], body: &[u8], shelf: &mut MemShelf) -> bool {
    let mut bytes = Vec::new(alloc);
    if append(header, &mut bytes) && append(body, &mut bytes) && append(b"\n", &mut bytes) {
        put_bytes(alloc, b"Main.mod", bytes, shelf)
    } else {
        drop(bytes);
        false
    }
}

/// Whether just these bytes stand under the name.
pub fn holds(alloc: Global, name: &str, bytes: &[u8], shelf: &MemShelf) -> bool {
    match Text::make(alloc, name.as_bytes()) {
        Ok(name) => {
            let is = shelf.get(&name) == Some(bytes);
            drop(name);
            is
        }
        Err(_) => false,
    }
}

/// Whether the bytes are the header, the body and a line feed.
fn is_module(header: &[u8], body: &[u8], bytes: &[u8]) -> bool {
    match bytes.strip_prefix(header) {
        Some(rest) => match rest.strip_prefix(body) {
            Some(end) => end == b"\n".as_slice(),
            None => false,
        },
        None => false,
    }
}

/// Whether the printed module has this header and this body.
pub fn holds_module(alloc: Global, header: &[u8], body: &[u8], shelf: &MemShelf) -> bool {
    match Text::make(alloc, b"Main.base") {
        Ok(name) => {
            let is = match shelf.get(&name) {
                Some(bytes) => is_module(header, body, bytes),
                None => false,
            };
            drop(name);
            is
        }
        Err(_) => false,
    }
}

/// Whether nothing stands under the name.
fn lacks(alloc: Global, name: &str, shelf: &MemShelf) -> bool {
    match Text::make(alloc, name.as_bytes()) {
        Ok(name) => {
            let is = shelf.get(&name).is_none();
            drop(name);
            is
        }
        Err(_) => false,
    }
}

/// Whether nothing stands under the names.
pub fn lack(alloc: Global, names: &[&str], shelf: &MemShelf) -> bool {
    for name in names {
        if !lacks(alloc, name, shelf) {
            return false;
        }
    }
    true
}

/// Lets just these calls of the shelf fail, and answers whether memory was there for that.
pub fn fail(alloc: Global, calls: &[u64], shelf: &mut MemShelf) -> bool {
    match Vec::from_slice(alloc, calls) {
        Ok(calls) => {
            shelf.fail(calls);
            true
        }
        Err(_) => false,
    }
}
