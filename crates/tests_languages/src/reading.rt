//! Languages that are read.

ghost use Rattle.std.specs.Prelude.{IfOk};
ghost use Rattle.sx_notation.specs.Language.{IsLanguage};

use std::alloc::Global;
use sx_language::read_language;
use sx_notation::{Language, NotationError, Unread};
use sx_term::{NoMemory, Text};

/// The bytes of one text, and then those of the other.
pub(crate) fn joined(alloc: Global, one: &[u8], other: &[u8]) -> Result<Vec<u8>, NoMemory> {
    let mut bytes = Vec::from_slice(alloc, one)?;
    bytes.extend_from_slice(other)?;
    Ok(bytes)
}

/// Whether the line is refused since it has these two readings.
pub(crate) fn has_readings(error: &NotationError, at: u32, one: &str, other: &str) -> bool {
    match error {
        NotationError::Read {
            line,
            error: Unread::Ambiguous(left, right),
        } => *line == at && left.as_str() == one && right.as_str() == other,
        _ => false,
    }
}

/// The language of the text, whose name is to be this one.
pub(crate) fn read(alloc: Global, name: &[u8], bytes: &[u8]) -> Result<Language, NotationError>
    ensures { IfOk result IsLanguage }
{
    if bytes.len() > 10_000 {
        return Err(NotationError::Memory);
    }
    match Text::make(alloc, name) {
        Ok(name) => read_language(alloc, &name, bytes),
        Err(_) => Err(NotationError::Memory),
    }
}
