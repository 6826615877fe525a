//! The first bad line of a core file, for each reason.

use crate::asserts::{assert_holds, assert_same};
use std::alloc::Global;
use sx_core::{CoreFileError, read_core_file};
use sx_lines::Kind;
use sx_term::NoMemory;

/// The number of the first bad line and what is bad about it.
fn bad_line(alloc: Global, bytes: &[u8]) -> Option<(u32, Kind)> {
    if bytes.len() > 1000 {
        return None;
    }
    let read = read_core_file(alloc, bytes);
    let told = match &read {
        Err(CoreFileError::Notation { line, kind }) => Some((*line, *kind)),
        _ => None,
    };
    drop(read);
    told
}

/// Whether the file is refused at this line for a bad line of this kind.
fn is_bad(rt: &HostRuntime, bytes: &[u8], line: u32, kind: Kind) -> bool {
    bad_line(rt.alloc(), bytes) == Some((line, kind))
}

#[test]
fn first_lines(rt: HostRuntime) {
    let hold = [
        is_bad(&rt, b"", 1, Kind::Head),
        is_bad(&rt, b"// two\n\nsxcore 2\n", 3, Kind::Head),
        is_bad(&rt, b"sxcore 1\nsrot Exp typed\n", 2, Kind::Directive),
        is_bad(&rt, b"sxcore 1\nsxcore 1\n", 2, Kind::Order),
    ];
    assert_same(&rt, &hold, &[true; 4]);
}

#[test]
fn declarations(rt: HostRuntime) {
    let hold = [
        is_bad(&rt, b"sxcore 1\nsort  Exp typed\n", 2, Kind::Shape),
        is_bad(
            &rt,
            b"sxcore 1\nsort E plain\nsort E plain\n",
            3,
            Kind::Shape,
        ),
        is_bad(&rt, b"sxcore 1\nsort num plain\n", 2, Kind::Shape),
        is_bad(&rt, b"sxcore 1\ncon one Exp\n", 2, Kind::Shape),
        is_bad(&rt, b"sxcore 1\ncon one E\nsort E plain\n", 4, Kind::Main),
    ];
    assert_same(&rt, &hold, &[true; 5]);
}

#[test]
fn rules(rt: HostRuntime) {
    let hold = [
        is_bad(&rt, b"sxcore 1\nend\n", 2, Kind::Order),
        is_bad(&rt, b"sxcore 1\nrule R\nthen f (0)\n", 3, Kind::Shape),
        is_bad(&rt, b"sxcore 1\n\nrule R\n", 3, Kind::Unfinished),
        is_bad(
            &rt,
            b"sxcore 1\nsort E typed\ncon a E\nform f sub:E\ngoal f (0)\nfoo",
            6,
            Kind::Order,
        ),
    ];
    assert_same(&rt, &hold, &[true; 4]);
}

#[test]
fn bad_rows(rt: HostRuntime) {
    let hold = [
        is_bad(&rt, b"sxcore 1\nsort E typed \n", 2, Kind::Shape),
        is_bad(&rt, b"sxcore 1\ncon a id\n", 2, Kind::Shape),
        is_bad(
            &rt,
            b"sxcore 1\nsort T plain\nsort E typed\ncon a T E\n",
            4,
            Kind::Shape,
        ),
        is_bad(
            &rt,
            b"sxcore 1\nsort T plain\nform f sub:T\n",
            3,
            Kind::Shape,
        ),
        is_bad(
            &rt,
            b"sxcore 1\nsort E typed\nform f in:E\n",
            3,
            Kind::Shape,
        ),
        is_bad(
            &rt,
            b"sxcore 1\nsort E typed\nform f sub:E sub:E\n",
            3,
            Kind::Shape,
        ),
        is_bad(
            &rt,
            b"sxcore 1\nsort E typed\nform f sub:E\nform f sub:E\n",
            4,
            Kind::Shape,
        ),
    ];
    assert_same(&rt, &hold, &[true; 7]);
}

#[test]
fn bad_judgements(rt: HostRuntime) {
    let hold = [
        is_bad(
            &rt,
            b"sxcore 1\nform f in:id\nrule R\nthen f\n",
            4,
            Kind::Shape,
        ),
        is_bad(
            &rt,
            b"sxcore 1\nform f in:id\nrule R\nthen f i1:x i1:y\n",
            4,
            Kind::Shape,
        ),
        is_bad(
            &rt,
            b"sxcore 1\nform f in:id\nrule R\nif f i2:x\n",
            4,
            Kind::Shape,
        ),
        is_bad(
            &rt,
            b"sxcore 1\nform f in:id\nrule R\nnot ?0 ?64\n",
            4,
            Kind::Shape,
        ),
        is_bad(
            &rt,
            b"sxcore 1\nform f in:id\ngoal f i1:x\n",
            3,
            Kind::Shape,
        ),
        is_bad(
            &rt,
            b"sxcore 1\nsort E typed\nform f sub:E\ngoal f ?0\n",
            4,
            Kind::Shape,
        ),
        is_bad(
            &rt,
            b"sxcore 1\nsort E typed\nform f sub:E\ngoal f i1:x\n",
            4,
            Kind::Shape,
        ),
    ];
    assert_same(&rt, &hold, &[true; 7]);
}

#[test]
fn lines_out_of_order(rt: HostRuntime) {
    let hold = [
        is_bad(&rt, b"sxcore 1\nrule R\nsort E typed\n", 3, Kind::Order),
        is_bad(
            &rt,
            b"sxcore 1\nform f\nrule R\nthen f\nend\nsort E typed\n",
            6,
            Kind::Order,
        ),
        is_bad(
            &rt,
            b"sxcore 1\nform f\nrule R\nthen f\nif f\n",
            5,
            Kind::Order,
        ),
        is_bad(&rt, b"sxcore 1\nform f\nrule R\nend\n", 4, Kind::Order),
        is_bad(
            &rt,
            b"sxcore 1\nsort E typed\ncon a E\nform f sub:E\ngoal f (0)\nrule R\n",
            6,
            Kind::Order,
        ),
        is_bad(
            &rt,
            b"sxcore 1\nform f\nrule R\nthen f\n",
            3,
            Kind::Unfinished,
        ),
    ];
    assert_same(&rt, &hold, &[true; 6]);
}

/// Puts the part behind the bytes so many times.
fn put_many(bytes: &mut Vec<u8>, part: &[u8], count: usize) -> Result<(), NoMemory> {
    for _ in 0..count {
        bytes.extend_from_slice(part)?;
    }
    Ok(())
}

fn put_nested(bytes: &mut Vec<u8>, levels: usize) -> Result<(), NoMemory> {
    bytes.extend_from_slice(b"sxcore 1\nsort E typed\ncon a E\ncon b E E\nform f sub:E\ngoal f ")?;
    put_many(bytes, b"(1 ", levels)?;
    bytes.extend_from_slice(b"(0)")?;
    put_many(bytes, b")", levels)
}

/// A file whose goal nests so many nodes round a leaf; less where memory is lacking.
fn nested(alloc: Global, levels: usize) -> Vec<u8> {
    let mut bytes = Vec::new(alloc);
    let _memory = put_nested(&mut bytes, levels).is_ok();
    bytes
}

/// The line with a core text that is too deep, and its depth.
fn too_deep(alloc: Global, bytes: &[u8]) -> Option<(u32, u64)> {
    if bytes.len() > 10_000 {
        return None;
    }
    let read = read_core_file(alloc, bytes);
    let told = match &read {
        Err(CoreFileError::TooDeep { line, depth }) => Some((*line, *depth)),
        _ => None,
    };
    drop(read);
    told
}

#[test]
fn a_term_that_is_too_deep(rt: HostRuntime) {
    let bytes = nested(rt.alloc(), 1000);
    let told = too_deep(rt.alloc(), &bytes);
    drop(bytes);
    assert_holds(&rt, told == Some((6, 1001)));
}

/// How many bytes stand before those that are not UTF-8.
fn not_utf8(alloc: Global, bytes: &[u8]) -> Option<usize> {
    if bytes.len() > 1000 {
        return None;
    }
    let read = read_core_file(alloc, bytes);
    let told = match &read {
        Err(CoreFileError::NotUtf8(place)) => Some(*place),
        _ => None,
    };
    drop(read);
    told
}

#[test]
fn bytes_that_are_not_utf8(rt: HostRuntime) {
    assert_holds(&rt, not_utf8(rt.alloc(), &[b'a', b'\n', 255]) == Some(2));
}
