//! Why no derivation is answered.

use crate::blame::Blame;
use std::alloc::{AllocError, AllocFailed};
use std::fmt;
use sx_term::NoMemory;
use thiserror::Error;

/// Out of memory, or how a search without an answer ended.
#[derive(Drop, Error)]
pub enum DeriveError {
    #[error("out of memory")]
    Memory,
    /// No derivation with such outputs exists, and this goal is stuck.
    #[error("no derivation")]
    Underivable(Blame),
    /// The search needs more tries than these.
    #[error("the tries are spent")]
    BudgetSpent(u64),
    /// The search comes to a goal that is deeper than this.
    #[error("a goal is too deep")]
    DepthSpent(u32),
    /// A term of this depth is made, which is more than 1,000. The number stays at the greatest
    /// u64.
    #[error("a term is too deep")]
    TooDeep(u64),
    /// A term of so many nodes, lexemes and variables is made, which are more than 1,000,000. The
    /// number stays at the greatest u64.
    #[error("a term has too many nodes")]
    TooBig(u64),
}

impl fmt::Debug for DeriveError {
    fn fmt<W: fmt::Write>(&self, f: &mut fmt::Formatter<W>) -> fmt::Result {
        fmt::Display::fmt(self, f)
    }
}

impl From<NoMemory> for DeriveError {
    ghost use Rattle.std.specs.Prelude.{◌≡◌};
    ghost use Rattle.sx_derive.specs.declared.derive_error.DeriveError.TheVariants.{Memory};

    ghost from_gives = { λ _ e. e ≡ Memory };

    fn from(_e: NoMemory) -> DeriveError {
        DeriveError::Memory
    }
}

impl From<AllocError> for DeriveError {
    ghost use Rattle.std.specs.Prelude.{◌≡◌};
    ghost use Rattle.sx_derive.specs.declared.derive_error.DeriveError.TheVariants.{Memory};

    ghost from_gives = { λ _ e. e ≡ Memory };

    fn from(_e: AllocError) -> DeriveError {
        DeriveError::Memory
    }
}

impl<T: Drop> From<AllocFailed<T>> for DeriveError {
    ghost use Rattle.std.specs.Prelude.{◌≡◌};
    ghost use Rattle.sx_derive.specs.declared.derive_error.DeriveError.TheVariants.{Memory};

    ghost from_gives = { λ _ e. e ≡ Memory };

    fn from(_e: AllocFailed<T>) -> DeriveError {
        DeriveError::Memory
    }
}
