//! Texts that are joined.

ghost use Rattle.std.specs.Prelude.{◌≡◌, ◌++◌, IfOk};

use std::alloc::Global;
use sx_term::{NoMemory, Text};

/// The text with the suffix.
pub fn with_suffix(alloc: Global, text: &Text, suffix: &str) -> Result<Text, NoMemory>
    ensures { IfOk result (λ t. t ≡ text.now ++ suffix.now) }
{
    let mut bytes = Vec::from_slice(alloc, text.bytes())?;
    bytes.extend_from_slice(suffix.as_bytes())?;
    Text::of_utf8(alloc, &bytes)
}

/// The two texts, one after the other.
pub fn joined(alloc: Global, text: &Text, other: &Text) -> Result<Text, NoMemory>
    ensures { IfOk result (λ t. t ≡ text.now ++ other.now) }
{
    let mut bytes = Vec::from_slice(alloc, text.bytes())?;
    bytes.extend_from_slice(other.bytes())?;
    Text::of_utf8(alloc, &bytes)
}
