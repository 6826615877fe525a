//! Shelves in memory, whose calls fail where a test says so, or never.

use crate::asserts::assert_same;
use std::alloc::Global;
use sx_outside::{CleanShelf, MemShelf, ReadAnswer, Shelf, WriteAnswer};
use sx_term::Text;
use tests_runs::files::{fail, holds, put};

/// What reading at most so many bytes under the name answers.
fn read<S: Shelf>(
    alloc: Global,
    shelf: &mut S,
    name: &[u8],
    limit: u32,
    into: &mut Vec<u8>,
) -> ReadAnswer {
    match Text::make(alloc, name) {
        Ok(name) => {
            let answer = shelf.read(&name, limit, into);
            drop(name);
            answer
        }
        Err(_) => ReadAnswer::NoMemory,
    }
}

/// What writing the bytes under `One.base` answers.
fn write<S: Shelf>(alloc: Global, shelf: &mut S, bytes: &[u8]) -> WriteAnswer {
    match Text::make(alloc, b"One.base") {
        Ok(name) => {
            let answer = shelf.write(&name, bytes);
            drop(name);
            answer
        }
        Err(_) => WriteAnswer::NoMemory,
    }
}

/// Whether a read under `One.base` finds these bytes.
fn finds<S: Shelf>(alloc: Global, shelf: &mut S, bytes: &[u8], into: &mut Vec<u8>) -> bool {
    read(alloc, shelf, b"One.base", 9, into) == ReadAnswer::Found && into.as_slice() == bytes
}

/// Puts the older bytes, and lets the second and the third call fail; whether memory sufficed.
fn fill(alloc: Global, shelf: &mut MemShelf) -> bool {
    put(alloc, "One.base", &[b"older"], shelf) && fail(alloc, &[2, 3], shelf)
}

/// The first step that is not as it is to be, or 0: the second and the third call fail.
fn first_wrong(alloc: Global, shelf: &mut MemShelf, into: &mut Vec<u8>) -> u8 {
    if !finds(alloc, shelf, b"older", into) {
        return 1;
    }
    if write(alloc, shelf, b"newer") != WriteAnswer::Failed {
        return 2;
    }
    if !holds(alloc, "One.base", b"ne", shelf) {
        return 3;
    }
    if read(alloc, shelf, b"One.base", 9, into) != ReadAnswer::Failed {
        return 4;
    }
    if !into.is_empty() {
        return 5;
    }
    if write(alloc, shelf, b"newest") != WriteAnswer::Done {
        return 6;
    }
    if read(alloc, shelf, b"One.base", 5, into) != ReadAnswer::TooLong {
        return 7;
    }
    if read(alloc, shelf, b"Two", 5, into) != ReadAnswer::Absent {
        return 8;
    }
    0
}

#[test]
fn a_shelf_fails(rt: HostRuntime) {
    let alloc = rt.alloc();
    let mut shelf = MemShelf::new(alloc);
    let mut into = Vec::new(alloc);
    let is_filled = fill(alloc, &mut shelf);
    let wrong = first_wrong(alloc, &mut shelf, &mut into);
    drop(into);
    drop(shelf);
    let hold = [is_filled, wrong == 0];
    assert_same(&rt, &hold, &[true; 2]);
}

/// Puts the older bytes; whether memory was there for that.
fn fill_clean(alloc: Global, shelf: &mut CleanShelf) -> bool {
    match Text::make(alloc, b"One.base") {
        Ok(name) => match Vec::from_slice(alloc, b"older") {
            Ok(bytes) => shelf.put(name, bytes).is_ok(),
            Err(_) => {
                drop(name);
                false
            }
        },
        Err(_) => false,
    }
}

/// Whether just these bytes stand under `One.base`.
fn clean_holds(alloc: Global, shelf: &CleanShelf, bytes: &[u8]) -> bool {
    match Text::make(alloc, b"One.base") {
        Ok(name) => {
            let is = shelf.get(&name) == Some(bytes);
            drop(name);
            is
        }
        Err(_) => false,
    }
}

/// The number of the first step that is not as it is to be, or 0: no call fails.
fn first_wrong_of_clean(alloc: Global, shelf: &mut CleanShelf, into: &mut Vec<u8>) -> u8 {
    if !finds(alloc, shelf, b"older", into) {
        return 1;
    }
    if write(alloc, shelf, b"newest") != WriteAnswer::Done {
        return 2;
    }
    if !clean_holds(alloc, shelf, b"newest") {
        return 3;
    }
    if !finds(alloc, shelf, b"newest", into) {
        return 4;
    }
    if read(alloc, shelf, b"One.base", 5, into) != ReadAnswer::TooLong {
        return 5;
    }
    if !into.is_empty() {
        return 6;
    }
    if read(alloc, shelf, b"Two", 5, into) != ReadAnswer::Absent {
        return 7;
    }
    0
}

#[test]
fn a_clean_shelf(rt: HostRuntime) {
    let alloc = rt.alloc();
    let mut shelf = CleanShelf::new(alloc);
    let mut into = Vec::new(alloc);
    let is_filled = fill_clean(alloc, &mut shelf);
    let wrong = first_wrong_of_clean(alloc, &mut shelf, &mut into);
    drop(into);
    drop(shelf);
    let hold = [is_filled, wrong == 0];
    assert_same(&rt, &hold, &[true; 2]);
}
