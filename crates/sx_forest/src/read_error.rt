//! Why there is not one reading.

use crate::reading::Reading;
use std::alloc::{AllocError, AllocFailed};
use std::fmt;
use sx_earley::ChartError;
use sx_term::NoMemory;
use thiserror::Error;

/// Why tokens have not one reading, or that memory is lacking.
#[derive(Drop, Error)]
pub enum ReadError {
    #[error("out of memory")]
    Memory,
    /// More than 2,000,000 items hold.
    #[error("more than 2000000 items")]
    TooHard,
    /// There is no reading; the greatest end of any item.
    #[error("no reading")]
    NoReading(u32),
    /// A reading is deeper than 1,000; the greatest depth of them.
    #[error("a reading is too deep")]
    TooDeep(u64),
    /// Two readings; the tree text of the first is not after that of the second by bytes.
    #[error("more than one reading")]
    Ambiguous(Reading, Reading),
}

impl fmt::Debug for ReadError {
    fn fmt<W: fmt::Write>(&self, f: &mut fmt::Formatter<W>) -> fmt::Result {
        fmt::Display::fmt(self, f)
    }
}

impl From<ChartError> for ReadError {
    ghost use Rattle.std.specs.Prelude.{◌≡◌};
    ghost use Rattle.sx_forest.specs.Verdict.{as_refusal};

    ghost from_gives = { λ x e. e ≡ as_refusal x };

    fn from(error: ChartError) -> ReadError {
        match error {
            ChartError::Memory => ReadError::Memory,
            ChartError::TooHard => ReadError::TooHard,
        }
    }
}

impl From<NoMemory> for ReadError {
    ghost use Rattle.std.specs.Prelude.{◌≡◌};
    ghost use Rattle.sx_forest.specs.declared.read_error.ReadError.TheVariants.{Memory};

    ghost from_gives = { λ _ e. e ≡ Memory };

    fn from(_: NoMemory) -> ReadError {
        ReadError::Memory
    }
}

impl From<AllocError> for ReadError {
    ghost use Rattle.std.specs.Prelude.{◌≡◌};
    ghost use Rattle.sx_forest.specs.declared.read_error.ReadError.TheVariants.{Memory};

    ghost from_gives = { λ _ e. e ≡ Memory };

    fn from(_: AllocError) -> ReadError {
        ReadError::Memory
    }
}

impl<T: Drop> From<AllocFailed<T>> for ReadError {
    ghost use Rattle.std.specs.Prelude.{◌≡◌};
    ghost use Rattle.sx_forest.specs.declared.read_error.ReadError.TheVariants.{Memory};

    ghost from_gives = { λ _ e. e ≡ Memory };

    fn from(_: AllocFailed<T>) -> ReadError {
        ReadError::Memory
    }
}
