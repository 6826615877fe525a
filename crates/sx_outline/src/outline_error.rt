//! Why a language file is refused before it is read by its grammar.

ghost use Rattle.std.specs.Prelude.{◌≡◌};
ghost use Rattle.sx_outline.specs.declared.outline_error.OutlineError.TheVariants as errors;

use std::alloc::{AllocError, AllocFailed};
use sx_lines::Kind;
use sx_term::NoMemory;
use thiserror::Error;

/// Why a language file has no outline. Lines count from 1.
#[derive(Debug, Drop, Error)]
pub enum OutlineError {
    /// Memory is lacking.
    #[error("out of memory")]
    Memory,
    /// The bytes are not UTF-8: how many bytes stand before the first bad sequence.
    #[error("not UTF-8")]
    NotUtf8(usize),
    /// The first bad line, or 1 more than the number of lines where one is missing, and what is bad
    /// about it.
    #[error("a bad line")]
    Notation { line: u32, kind: Kind },
}

/// The refusal of a line.
pub(crate) fn bad_line(number: u32, kind: Kind) -> OutlineError
    ensures { result ≡ errors.Notation number kind }
{
    OutlineError::Notation { line: number, kind }
}

impl From<NoMemory> for OutlineError {
    ghost use Rattle.std.specs.Prelude.{◌≡◌};
    ghost use Rattle.sx_outline.specs.declared.outline_error.OutlineError.TheVariants.{Memory};

    ghost from_gives = { λ _ e. e ≡ Memory };

    fn from(_e: NoMemory) -> OutlineError {
        OutlineError::Memory
    }
}

impl From<AllocError> for OutlineError {
    ghost use Rattle.std.specs.Prelude.{◌≡◌};
    ghost use Rattle.sx_outline.specs.declared.outline_error.OutlineError.TheVariants.{Memory};

    ghost from_gives = { λ _ e. e ≡ Memory };

    fn from(_e: AllocError) -> OutlineError {
        OutlineError::Memory
    }
}

impl<T: Drop> From<AllocFailed<T>> for OutlineError {
    ghost use Rattle.std.specs.Prelude.{◌≡◌};
    ghost use Rattle.sx_outline.specs.declared.outline_error.OutlineError.TheVariants.{Memory};

    ghost from_gives = { λ _ e. e ≡ Memory };

    fn from(_e: AllocFailed<T>) -> OutlineError {
        OutlineError::Memory
    }
}
