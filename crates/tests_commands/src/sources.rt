//! Sources in memory, whose takes fail where a test says so, or never.

use crate::asserts::assert_same;
use std::alloc::Global;
use sx_outside::{CleanSource, MemSource, Source, TakeAnswer};

/// Whether a take of at most two bytes answers so, and leaves these two.
fn takes<I: Source>(source: &mut I, into: &mut [u8; 2], answer: TakeAnswer, left: [u8; 2]) -> bool {
    source.take(into) == answer && *into == left
}

/// A source of `abc` whose call with this number fails, unless memory is lacking.
fn failing_source(alloc: Global, call: u64) -> Option<MemSource> {
    match Vec::from_slice(alloc, b"abc") {
        Ok(bytes) => {
            let mut source = MemSource::new(bytes);
            match Vec::from_slice(alloc, &[call]) {
                Ok(calls) => {
                    source.fail(calls);
                    Some(source)
                }
                Err(_) => {
                    drop(source);
                    None
                }
            }
        }
        Err(_) => None,
    }
}

/// The first take that is not as it is to be, or 0: the second fails. A take that fails and one
/// at the end leave the bytes as they were.
fn first_wrong<I: Source>(source: &mut I) -> u8 {
    let mut into = [0u8; 2];
    if !takes(source, &mut into, TakeAnswer::Took(2), [b'a', b'b']) {
        return 1;
    }
    if !takes(source, &mut into, TakeAnswer::Failed, [b'a', b'b']) {
        return 2;
    }
    if !takes(source, &mut into, TakeAnswer::Took(1), [b'c', b'b']) {
        return 3;
    }
    if !takes(source, &mut into, TakeAnswer::End, [b'c', b'b']) {
        return 4;
    }
    0
}

#[test]
fn a_source_fails(rt: HostRuntime) {
    let wrong = match failing_source(rt.alloc(), 2) {
        Some(source) => {
            let mut source = source;
            let wrong = first_wrong(&mut source);
            drop(source);
            wrong
        }
        None => u8::MAX,
    };
    assert_same(&rt, &wrong, &0);
}

/// The same where no take fails.
fn first_wrong_of_clean<I: Source>(source: &mut I) -> u8 {
    let mut into = [0u8; 2];
    if !takes(source, &mut into, TakeAnswer::Took(2), [b'a', b'b']) {
        return 1;
    }
    if !takes(source, &mut into, TakeAnswer::Took(1), [b'c', b'b']) {
        return 2;
    }
    if !takes(source, &mut into, TakeAnswer::End, [b'c', b'b']) {
        return 3;
    }
    0
}

#[test]
fn a_clean_source(rt: HostRuntime) {
    let wrong = match Vec::from_slice(rt.alloc(), b"abc") {
        Ok(bytes) => {
            let mut source = CleanSource::new(bytes);
            let wrong = first_wrong_of_clean(&mut source);
            drop(source);
            wrong
        }
        Err(_) => u8::MAX,
    };
    assert_same(&rt, &wrong, &0);
}
