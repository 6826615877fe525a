//! Terms and texts that the tests are about.

ghost use Rattle.std.specs.Prelude.{◌≡◌, ◌≤◌, IfOk, IfSome};
ghost use Rattle.sx_term.specs.Tree.{depth_of};
ghost use Rattle.sx_term.specs.Term.{tree};
ghost use Rattle.sx_term.specs.Core.{HasCore};

use std::alloc::{AllocError, Global};
use sx_term::{NoMemory, Term, Text, read_core};

/// The text with these bytes, where there is memory.
pub(crate) fn text(alloc: Global, text: &str) -> Result<Text, NoMemory>
    ensures { IfOk result (λ t. t ≡ text.now) }
{
    match Text::make(alloc, text.as_bytes()) {
        Ok(text) => Ok(text),
        Err(_) => Err(NoMemory::Memory),
    }
}

/// The term of a core text.
pub(crate) fn term(alloc: Global, core: &str) -> Option<Term>
    ensures depth { IfSome result (λ t. depth_of (tree t) ≤ 1000) }
    ensures has_core { IfSome result (λ t. HasCore (tree t)) }
{
    term_of(alloc, core.as_bytes())
}

/// The same of bytes.
pub(crate) fn term_of(alloc: Global, core: &[u8]) -> Option<Term>
    ensures depth { IfSome result (λ t. depth_of (tree t) ≤ 1000) }
    ensures has_core { IfSome result (λ t. HasCore (tree t)) }
{
    match read_core(alloc, core, 0) {
        Ok((term, _)) => Some(term),
        Err(_) => None,
    }
}

/// Puts the part behind the bytes so many times.
pub(crate) fn put_many(bytes: &mut Vec<u8>, part: &[u8], count: u32) -> Result<(), AllocError> {
    for _ in 0..count {
        bytes.extend_from_slice(part)?;
    }
    Ok(())
}

fn put_nested(
    bytes: &mut Vec<u8>,
    front: &[u8],
    count: u32,
    middle: &[u8],
    end: &[u8],
) -> Result<(), AllocError> {
    put_many(bytes, front, count)?;
    bytes.extend_from_slice(middle)?;
    put_many(bytes, end, count)
}

/// So many fronts, the middle and as many ends; less where memory is lacking.
pub(crate) fn nested(
    alloc: Global,
    front: &[u8],
    count: u32,
    middle: &[u8],
    end: &[u8],
) -> Vec<u8> {
    let mut bytes = Vec::new(alloc);
    let _memory = put_nested(&mut bytes, front, count, middle, end).is_ok();
    bytes
}
