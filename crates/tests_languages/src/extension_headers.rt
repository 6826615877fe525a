//! The first lines of extension files.

use crate::asserts::assert_same;
use std::alloc::Global;
use std::test::*;
use sx_lines::Kind;
use sx_outline::{ExtensionHeader, OutlineError, read_extension_header};
use sx_term::Text;

/// The header of a file of the extension `Let`.
fn read(alloc: Global, bytes: &[u8]) -> Result<ExtensionHeader, OutlineError> {
    if bytes.len() > 10_000 {
        return Err(OutlineError::Memory);
    }
    match Text::make(alloc, b"Let") {
        Ok(name) => read_extension_header(alloc, &name, bytes),
        Err(_) => Err(OutlineError::Memory),
    }
}

/// Whether the extension `Let` of the language `Lam-2` uses `Seq` and `Unit_1`.
fn is_let(header: &ExtensionHeader) -> bool {
    match header.uses.as_slice() {
        [first, second] => {
            header.name.bytes() == b"Let".as_slice()
                && header.language.bytes() == b"Lam-2".as_slice()
                && first.bytes() == b"Seq".as_slice()
                && second.bytes() == b"Unit_1".as_slice()
        }
        _ => false,
    }
}

/// Whether the bytes have that header.
fn states_let(alloc: Global, bytes: &[u8]) -> bool {
    let read = read(alloc, bytes);
    let answer = match &read {
        Ok(header) => is_let(header),
        Err(_) => false,
    };
    drop(read);
    answer
}

/// Whether the bytes have a header that uses nothing.
fn uses_nothing(alloc: Global, bytes: &[u8]) -> bool {
    let read = read(alloc, bytes);
    let answer = match &read {
        Ok(header) => header.uses.is_empty(),
        Err(_) => false,
    };
    drop(read);
    answer
}

#[test]
fn what_first_lines_state(rt: HostRuntime) {
    let alloc = rt.alloc();
    let hold = [
        states_let(
            alloc,
            b"// let\r\n extension Let\nlanguage Lam-2\n\nuse Seq\n//\nuse Unit_1\nprod",
        ),
        states_let(
            alloc,
            b"extension Let\nlanguage Lam-2\nuse Seq\nuse Unit_1\nuses Seq",
        ),
        uses_nothing(alloc, b"extension Let\nlanguage Lam"),
        uses_nothing(alloc, b"extension Let\nlanguage Lam\nrule\nuse Seq\n"),
    ];
    assert_same(&rt, &hold, &[true; 4]);
}

/// Whether the first bad line of the header is this one, and of this kind.
fn is_bad(alloc: Global, bytes: &[u8], number: u32, bad: Kind) -> bool {
    let read = read(alloc, bytes);
    let answer = match &read {
        Err(OutlineError::Notation { line, kind }) => *line == number && *kind == bad,
        _ => false,
    };
    drop(read);
    answer
}

/// Whether the bytes are not UTF-8 from this place on.
fn is_no_text(alloc: Global, bytes: &[u8], at: usize) -> bool {
    let read = read(alloc, bytes);
    let answer = match &read {
        Err(OutlineError::NotUtf8(place)) => *place == at,
        _ => false,
    };
    drop(read);
    answer
}

#[test]
fn bad_first_lines(rt: HostRuntime) {
    let alloc = rt.alloc();
    let hold = [
        is_bad(alloc, b"", 1, Kind::Head),
        is_bad(alloc, b"//\n\n", 3, Kind::Head),
        is_bad(alloc, b"extension Lets\nlanguage Lam", 1, Kind::Head),
        is_bad(alloc, b"language Let\n", 1, Kind::Head),
        is_bad(alloc, b"extension Let\n", 2, Kind::Head),
        is_bad(alloc, b"extension Let\n//\nuse Seq\n", 3, Kind::Head),
        is_bad(
            alloc,
            b"extension Let\nlanguage Lam\nuse Seq\nuse Seq\n",
            4,
            Kind::Shape,
        ),
        is_bad(alloc, b"extension Let\nlanguage Lam\nuse\n", 3, Kind::Shape),
        is_bad(
            alloc,
            b"extension Let\nlanguage Lam\nuse a-b\n",
            3,
            Kind::Shape,
        ),
        is_no_text(alloc, b"extension Let\n\xff", 14),
    ];
    assert_same(&rt, &hold, &[true; 10]);
}
