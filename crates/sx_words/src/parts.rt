//! Texts made of parts.

ghost use Rattle.std.specs.Prelude.{◌≡◌, [], ◌∷◌, ◌++◌, ◌<◌, OnOk, OnErr, IfOk, decimal};
ghost use Rattle.std.specs.Prelude.{string_bytes};
ghost use Rattle.std.specs.List.{flat_map};
ghost use Rattle.sx_lines.specs.Reading.{BeginsWith};
ghost use Rattle.sx_words.specs.RefusalText.{joined};

use std::alloc::Global;
use sx_term::{NoMemory, Text};

/// Appends the parts one after the other, or a front of them where memory is lacking.
pub(crate) fn put(parts: &[&[u8]], into: &mut Vec<u8>) -> Result<(), NoMemory>
    ensures ok { OnOk result (into.new.items ≡ into.old.items
        ++ flat_map (λ part. part.now) parts.now) }
    ensures err { OnErr result (BeginsWith into.new.items into.old.items) }
{
    for part in parts {
        into.extend_from_slice(part)?;
    }
    Ok(())
}

/// Appends the words.
pub(crate) fn put_words(words: &[u8], into: &mut Vec<u8>) -> Result<(), NoMemory>
    ensures { OnOk result (into.new.items ≡ into.old.items ++ joined (words.now ∷ [])) }
{
    put(&[words], into)
}

/// Appends a text, the name and another text.
pub(crate) fn put_named(
    front: &[u8],
    name: &Text,
    back: &[u8],
    into: &mut Vec<u8>,
) -> Result<(), NoMemory>
    ensures { OnOk result (into.new.items ≡ into.old.items
        ++ joined (front.now ∷ name.now ∷ back.now ∷ [])) }
{
    put(&[front, name.bytes(), back], into)
}

/// Appends a text, the number in decimal and another text.
pub(crate) fn put_number(
    alloc: Global,
    front: &[u8],
    n: u64,
    back: &[u8],
    into: &mut Vec<u8>,
) -> Result<(), NoMemory>
    ensures { OnOk result (into.new.items ≡ into.old.items
        ++ joined (front.now ∷ decimal n ∷ back.now ∷ [])) }
{
    let n = number(alloc, n)?;
    put(&[front, n.as_str().as_bytes(), back], into)
}

/// The number in decimal, without leading zeros.
pub(crate) fn number(alloc: Global, n: u64) -> Result<String, NoMemory>
    ensures { IfOk result (λ text. string_bytes text ≡ decimal n) }
{
    Ok(format!(in alloc; "{n}")?)
}
