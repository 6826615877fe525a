//! Why there is no chart.

use std::alloc::{AllocError, AllocFailed};
use sx_term::NoMemory;
use thiserror::Error;

/// Out of memory, or too many items.
#[derive(Debug, Drop, Error)]
pub enum ChartError {
    #[error("out of memory")]
    Memory,
    /// More than 2,000,000 items hold.
    #[error("more than 2000000 items")]
    TooHard,
}

impl From<AllocError> for ChartError {
    ghost use Rattle.std.specs.Prelude.{◌≡◌};
    ghost use Rattle.sx_earley.specs.declared.chart_error.ChartError.TheVariants.{Memory};

    ghost from_gives = { λ _ e. e ≡ Memory };

    fn from(_: AllocError) -> ChartError {
        ChartError::Memory
    }
}

impl<T: Drop> From<AllocFailed<T>> for ChartError {
    ghost use Rattle.std.specs.Prelude.{◌≡◌};
    ghost use Rattle.sx_earley.specs.declared.chart_error.ChartError.TheVariants.{Memory};

    ghost from_gives = { λ _ e. e ≡ Memory };

    fn from(_: AllocFailed<T>) -> ChartError {
        ChartError::Memory
    }
}

impl From<NoMemory> for ChartError {
    ghost use Rattle.std.specs.Prelude.{◌≡◌};
    ghost use Rattle.sx_earley.specs.declared.chart_error.ChartError.TheVariants.{Memory};

    ghost from_gives = { λ _ e. e ≡ Memory };

    fn from(_: NoMemory) -> ChartError {
        ChartError::Memory
    }
}
