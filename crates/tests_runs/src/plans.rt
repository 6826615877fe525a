//! What is asked of plans and of stops.

use std::alloc::Global;
use sx_steps::{Stop, Work};

/// Whether this is the line of the stop.
pub fn is_line(alloc: Global, stop: &Stop, line: &[u8]) -> bool {
    match stop.line(alloc) {
        Ok(told) => {
            let is = told.as_slice() == line;
            drop(told);
            is
        }
        Err(_) => false,
    }
}

/// Whether the plan's file with this number has this name and these bytes.
pub fn is_file(work: &Work, number: usize, name: &str, bytes: &[u8]) -> bool {
    match work.files.get(number) {
        Some(file) => file.name.as_str() == name && file.bytes.as_slice() == bytes,
        None => false,
    }
}
