//! A file that is read, one that is not there, and the files of a unit.

use crate::asserts::assert_same;
use std::alloc::Global;
use sx_outside::MemShelf;
use sx_steps::{StepError, Work, built_work, read_file};
use sx_term::{MOST_BYTES, Text};
use tests_runs::files::put;
use tests_runs::plans::{is_file, is_line};

/// Whether reading at most so many bytes of the file answers these, or a stop with this line.
fn reads(alloc: Global, shelf: &mut MemShelf, name: &[u8], limit: u32, told: &[u8]) -> bool {
    match Text::make(alloc, name) {
        Ok(name) => {
            let read = read_file(alloc, &name, limit, shelf);
            drop(name);
            let is = match &read {
                Ok(bytes) => bytes.as_slice() == told,
                Err(StepError::Stopped(stop)) => is_line(alloc, stop, told),
                Err(StepError::Memory) => false,
            };
            drop(read);
            is
        }
        Err(_) => false,
    }
}

/// The number of the first read that is not as it is to be, or 0.
fn first_wrong(alloc: Global, shelf: &mut MemShelf) -> u8 {
    if !reads(alloc, shelf, b"One.mod", MOST_BYTES, b"one\n") {
        return 1;
    }
    if !reads(alloc, shelf, b"One.mod", 3, b"soundx: One.mod: too long\n") {
        return 2;
    }
    if !reads(
        alloc,
        shelf,
        b"Two.mod",
        MOST_BYTES,
        b"soundx: Two.mod: absent\n",
    ) {
        return 3;
    }
    0
}

#[test]
fn files_are_read(rt: HostRuntime) {
    let alloc = rt.alloc();
    let mut shelf = MemShelf::new(alloc);
    let is_put = put(alloc, "One.mod", &[b"one\n"], &mut shelf);
    let wrong = first_wrong(alloc, &mut shelf);
    drop(shelf);
    let hold = [is_put, wrong == 0];
    assert_same(&rt, &hold, &[true; 2]);
}

/// The bytes, unless memory is lacking.
fn bytes(alloc: Global, from: &[u8]) -> Option<Vec<u8>> {
    match Vec::from_slice(alloc, from) {
        Ok(bytes) => Some(bytes),
        Err(_) => None,
    }
}

/// Whether the work is that of the test.
fn is_work(work: &Work) -> bool {
    work.files.len() == 3
        && is_file(work, 0, "One.base", b"base")
        && is_file(work, 1, "One.der", b"list")
        && is_file(work, 2, "One.int", b"interface")
        && work.lines.as_slice() == b"built One: 2 nodes\n".as_slice()
}

/// Whether the work of these texts, of a unit of two nodes, is that of the test.
fn is_built(alloc: Global, name: &Text, base: Vec<u8>, list: Vec<u8>, interface: Vec<u8>) -> bool {
    let built = built_work(alloc, name, base, list, interface, 2);
    let is = match &built {
        Ok(work) => is_work(work),
        Err(_) => false,
    };
    drop(built);
    is
}

/// Whether the work of the unit `One` is that of the test.
fn is_unit(alloc: Global, name: &Text) -> bool {
    match bytes(alloc, b"base") {
        Some(base) => match bytes(alloc, b"list") {
            Some(list) => match bytes(alloc, b"interface") {
                Some(interface) => is_built(alloc, name, base, list, interface),
                None => {
                    drop(list);
                    drop(base);
                    false
                }
            },
            None => {
                drop(base);
                false
            }
        },
        None => false,
    }
}

#[test]
fn the_files_of_a_unit(rt: HostRuntime) {
    let alloc = rt.alloc();
    let is = match Text::make(alloc, b"One") {
        Ok(name) => {
            let is = is_unit(alloc, &name);
            drop(name);
            is
        }
        Err(_) => false,
    };
    assert!(rt; is);
}
