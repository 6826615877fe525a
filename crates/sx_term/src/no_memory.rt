//! Out of memory.

use std::alloc::{AllocError, AllocFailed};
use thiserror::Error;

/// Memory is lacking: the one refusal of a call that otherwise always answers.
#[derive(Debug, Drop, Error)]
pub enum NoMemory {
    /// The allocator refused.
    #[error("out of memory")]
    Memory,
}

impl From<AllocError> for NoMemory {
    ghost use Rattle.std.specs.Prelude.{◌≡◌};
    ghost use Rattle.sx_term.specs.declared.no_memory.NoMemory.TheVariants.{Memory};

    ghost from_gives = { λ _ e. e ≡ Memory };

    fn from(_e: AllocError) -> NoMemory {
        NoMemory::Memory
    }
}

impl<T: Drop> From<AllocFailed<T>> for NoMemory {
    ghost use Rattle.std.specs.Prelude.{◌≡◌};
    ghost use Rattle.sx_term.specs.declared.no_memory.NoMemory.TheVariants.{Memory};

    ghost from_gives = { λ _ e. e ≡ Memory };

    fn from(_e: AllocFailed<T>) -> NoMemory {
        NoMemory::Memory
    }
}
