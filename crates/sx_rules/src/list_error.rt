//! Why a text is no derivation list.

use std::alloc::{AllocError, AllocFailed};
use sx_lines::NoLine;
use thiserror::Error;

/// Why a derivation list could not be read.
#[derive(Debug, Drop, Error)]
pub enum ListError {
    #[error("out of memory")]
    Memory,
    /// The number of the first line that is not as defined, from 1; that of a line that is missing
    /// is 1 more than the number of lines.
    #[error("a line is no line of a derivation list")]
    BadList(u32),
}

impl From<AllocError> for ListError {
    ghost use Rattle.std.specs.Prelude.{◌≡◌};
    ghost use Rattle.sx_rules.specs.declared.list_error.ListError.TheVariants.{Memory};

    ghost from_gives = { λ _ e. e ≡ Memory };

    fn from(_e: AllocError) -> ListError {
        ListError::Memory
    }
}

impl<T: Drop> From<AllocFailed<T>> for ListError {
    ghost use Rattle.std.specs.Prelude.{◌≡◌};
    ghost use Rattle.sx_rules.specs.declared.list_error.ListError.TheVariants.{Memory};

    ghost from_gives = { λ _ e. e ≡ Memory };

    fn from(_e: AllocFailed<T>) -> ListError {
        ListError::Memory
    }
}

impl From<NoLine> for ListError {
    ghost use Rattle.std.specs.Prelude.{◌≡◌};
    ghost use Rattle.sx_rules.specs.declared.list_error.ListError.TheVariants.{BadList};

    ghost from_gives = { λ n e. e ≡ BadList n.number };

    fn from(n: NoLine) -> ListError {
        ListError::BadList(n.number)
    }
}
