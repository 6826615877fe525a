//! Why no core text is read.

use crate::no_memory::NoMemory;
use std::fmt;
use thiserror::Error;

/// Why no core text is read at a place.
#[derive(Drop, Error)]
pub enum CoreError {
    /// Memory is lacking.
    #[error("out of memory")]
    Memory,
    /// No core text stands at the place. The byte with this number, from 0, is the first that can't
    /// stand where it does; it is the number of bytes where the text is cut off.
    #[error("a bad core text")]
    BadCore(usize),
    /// A core text stands there, of a term with this depth, which is more than 1,000.
    #[error("a core text is too deep")]
    TooDeep(u64),
}

impl fmt::Debug for CoreError {
    fn fmt<W: fmt::Write>(&self, f: &mut fmt::Formatter<W>) -> fmt::Result {
        fmt::Display::fmt(self, f)
    }
}

impl From<NoMemory> for CoreError {
    ghost use Rattle.std.specs.Prelude.{◌≡◌};
    ghost use Rattle.sx_term.specs.declared.core_error.CoreError.TheVariants.{Memory};

    ghost from_gives = { λ _ e. e ≡ Memory };

    fn from(_e: NoMemory) -> CoreError {
        CoreError::Memory
    }
}
