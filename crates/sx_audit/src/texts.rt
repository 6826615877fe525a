//! The texts of auditors.

ghost use Rattle.std.specs.Prelude.{◌≡◌, ◌++◌, IfOk, OnOk};
ghost use Rattle.std.specs.Fmt.{decimal};
ghost use Rattle.sx_audit.specs.Kinds as spec;

use std::alloc::Global;
use sx_term::NoMemory;

/// Appends a word after a blank.
pub(crate) fn put_word(word: &[u8], into: &mut Vec<u8>) -> Result<(), NoMemory>
    ensures { OnOk result (into.new.items ≡ into.old.items ++ spec.after_blank word.now) }
{
    into.push(b' ')?;
    into.extend_from_slice(word)?;
    Ok(())
}

/// Appends a number after a blank.
pub(crate) fn put_number(alloc: Global, number: u64, into: &mut Vec<u8>) -> Result<(), NoMemory>
    ensures { OnOk result (into.new.items ≡ into.old.items
        ++ spec.after_blank (decimal number)) }
{
    let digits = number.to_string(alloc)?;
    put_word(digits.as_bytes(), into)
}

/// The text of a limit, after the kind's word.
pub(crate) fn limit_text(
    alloc: Global,
    word: &[u8],
    limit: u64,
    so_far: u64,
) -> Result<Vec<u8>, NoMemory>
    ensures { IfOk result (λ v. v.items ≡ spec.limit_text word.now (spec.of_limit limit so_far)) }
{
    let mut made = Vec::new(alloc);
    made.extend_from_slice(word)?;
    put_number(alloc, so_far, &mut made)?;
    put_word(b"of", &mut made)?;
    put_number(alloc, limit, &mut made)?;
    Ok(made)
}
