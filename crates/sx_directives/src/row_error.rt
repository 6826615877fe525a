//! Why a line is no row.

use std::alloc::{AllocError, AllocFailed};
use sx_term::NoMemory;
use thiserror::Error;

/// Why a line states nothing.
#[derive(Debug, Drop, Error)]
pub enum RowError {
    /// Memory is lacking.
    #[error("out of memory")]
    Memory,
    /// The parts of the line are not as stated.
    #[error("bad parts")]
    Shape,
}

impl From<NoMemory> for RowError {
    ghost use Rattle.std.specs.Prelude.{◌≡◌};
    ghost use Rattle.sx_directives.specs.declared.row_error.RowError.TheVariants.{Memory};

    ghost from_gives = { λ _ e. e ≡ Memory };

    fn from(_e: NoMemory) -> RowError {
        RowError::Memory
    }
}

impl From<AllocError> for RowError {
    ghost use Rattle.std.specs.Prelude.{◌≡◌};
    ghost use Rattle.sx_directives.specs.declared.row_error.RowError.TheVariants.{Memory};

    ghost from_gives = { λ _ e. e ≡ Memory };

    fn from(_e: AllocError) -> RowError {
        RowError::Memory
    }
}

impl<T: Drop> From<AllocFailed<T>> for RowError {
    ghost use Rattle.std.specs.Prelude.{◌≡◌};
    ghost use Rattle.sx_directives.specs.declared.row_error.RowError.TheVariants.{Memory};

    ghost from_gives = { λ _ e. e ≡ Memory };

    fn from(_e: AllocFailed<T>) -> RowError {
        RowError::Memory
    }
}
