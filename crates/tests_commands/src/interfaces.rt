//! Interfaces of modules, and the digests in them.

use crate::asserts::assert_same;
use crate::interface_samples::{EXTENDED_INTERFACE, FIRST_INTERFACE, INTERFACE};
use std::alloc::Global;
use sx_interface::{
    HeaderError, Interface, digest, read_digest, read_interface, write_digest, write_interface,
};
use sx_term::Text;

/// Whether these are the digits of the digest of `abc`.
fn are_digits_of_abc(alloc: Global, digits: &[u8]) -> bool {
    match read_digest(digits) {
        Some(read) => {
            let mut written = Vec::new(alloc);
            let is = write_digest(alloc, &read, &mut written).is_ok()
                && written.as_slice() == digits
                && read == digest(b"abc");
            drop(written);
            is
        }
        None => false,
    }
}

#[test]
fn known_digest(rt: HostRuntime) {
    let text = b"ba7816bf8f01cfea414140de5dae2223b00361a396177a9cb410ff61f20015ad";
    let upper = b"BA7816BF8F01CFEA414140DE5DAE2223B00361A396177A9CB410FF61F20015AD";
    let hold = [
        are_digits_of_abc(rt.alloc(), text),
        read_digest(&text[1..]).is_none(),
        read_digest(upper).is_none(),
    ];
    assert_same(&rt, &hold, &[true; 3]);
}

/// Whether the interface has so many uses, one import, and this stated signature.
fn is_sample(it: &Interface, uses: usize, stated: &[u8]) -> bool {
    it.language.bytes() == b"L".as_slice()
        && it.uses.len() == uses
        && it.imports.len() == 1
        && it.signature.bytes() == b"int -> int".as_slice()
        && it.stated.bytes() == stated
}

/// Whether the interface is written as this text.
fn is_written_as(alloc: Global, it: &Interface, text: &[u8]) -> bool {
    let mut written = Vec::new(alloc);
    let is = write_interface(alloc, it, &mut written).is_ok() && written.as_slice() == text;
    drop(written);
    is
}

/// What reading an interface answers.
#[derive(Clone, Copy, PartialEq, Eq, Debug)]
enum Answer {
    Extended,
    Plain,
    Different,
    BadLine(u32),
    Version(u64),
    Other,
}

/// Which sample was read.
fn sample_of(alloc: Global, it: &Interface) -> Answer {
    if is_sample(it, 0, b"int -> int") && is_written_as(alloc, it, INTERFACE) {
        return Answer::Plain;
    }
    if is_sample(it, 2, b"fn int int") && is_written_as(alloc, it, EXTENDED_INTERFACE) {
        return Answer::Extended;
    }
    Answer::Different
}

/// What is read.
fn answer_of(alloc: Global, read: &Result<Interface, HeaderError>) -> Answer {
    match read {
        Ok(it) => sample_of(alloc, it),
        Err(HeaderError::Header(line)) => Answer::BadLine(*line),
        Err(HeaderError::Version(number)) => Answer::Version(*number),
        Err(_) => Answer::Other,
    }
}

/// What reading the interface of the module `M` answers.
fn reading(alloc: Global, text: &[u8]) -> Answer {
    if text.len() > 1000 {
        return Answer::Other;
    }
    match Text::make(alloc, b"M") {
        Ok(name) => {
            let read = read_interface(alloc, &name, text);
            drop(name);
            let answer = answer_of(alloc, &read);
            drop(read);
            answer
        }
        Err(_) => Answer::Other,
    }
}

#[test]
fn interface_both_ways(rt: HostRuntime) {
    let alloc = rt.alloc();
    let answers = [
        reading(alloc, FIRST_INTERFACE),
        reading(alloc, INTERFACE),
        reading(alloc, EXTENDED_INTERFACE),
    ];
    assert_same(
        &rt,
        &answers,
        &[Answer::Plain, Answer::Plain, Answer::Extended],
    );
}

#[test]
fn versions(rt: HostRuntime) {
    let alloc = rt.alloc();
    let answers = [
        reading(alloc, b"sxint 0"),
        reading(alloc, b"sxint 10\n"),
        reading(alloc, b"sxint 18446744073709551615\n"),
        reading(alloc, b"sxint 18446744073709551616\n"),
        reading(alloc, b"sxint 01\n"),
        reading(alloc, b"sxint 1\n"),
        reading(alloc, b"sxint 1\nmodule M\n"),
        reading(alloc, b"sxint 2\n"),
        reading(alloc, b"sxint 3\n"),
    ];
    let wanted = [
        Answer::Version(0),
        Answer::Version(10),
        Answer::Version(u64::MAX),
        Answer::BadLine(1),
        Answer::BadLine(1),
        Answer::BadLine(2),
        Answer::BadLine(3),
        Answer::BadLine(2),
        Answer::Version(3),
    ];
    assert_same(&rt, &answers, &wanted);
}
