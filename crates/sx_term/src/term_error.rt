//! The limits of terms.

use crate::no_memory::NoMemory;
use std::fmt;
use thiserror::Error;

/// Why no instance is made.
#[derive(Drop, Error)]
pub enum TermError {
    /// Memory is lacking.
    #[error("out of memory")]
    Memory,
    /// The instance has this depth, which is more than 1,000.
    #[error("a term is too deep")]
    TooDeep(u32),
    /// The instance has so many nodes, lexemes and variables, which are more than 1,000,000. The
    /// number stays at the greatest u64.
    #[error("a term has too many nodes")]
    TooBig(u64),
}

impl fmt::Debug for TermError {
    fn fmt<W: fmt::Write>(&self, f: &mut fmt::Formatter<W>) -> fmt::Result {
        fmt::Display::fmt(self, f)
    }
}

impl From<NoMemory> for TermError {
    ghost use Rattle.std.specs.Prelude.{◌≡◌};
    ghost use Rattle.sx_term.specs.declared.term_error.TermError.TheVariants.{Memory};

    ghost from_gives = { λ _ e. e ≡ Memory };

    fn from(_e: NoMemory) -> TermError {
        TermError::Memory
    }
}
