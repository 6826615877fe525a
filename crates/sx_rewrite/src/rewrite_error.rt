//! Why a derivation is not rewritten.

use std::alloc::{AllocError, AllocFailed};
use sx_term::NoMemory;
use thiserror::Error;

/// Why no lowered derivation is answered. The first of these in order is told.
#[derive(Debug, Drop, Error)]
pub enum RewriteError {
    /// Memory is lacking.
    #[error("out of memory")]
    Memory,
    /// The lowered derivation has more nodes than this budget.
    #[error("rewriting needs more than {0} nodes")]
    RewriteSpent(u64),
    /// The lowered derivation is deeper than 3,000.
    #[error("rewriting goes over depth 3000")]
    RewriteDeep,
    /// A term of it, the first that is measured, has this depth, which is more than 1,000.
    #[error("depth {0} is over 1000")]
    TooDeep(u64),
    /// A term of it, the first that is measured, has so many nodes, lexemes and variables,
    /// which are more than 1,000,000.
    #[error("a term has {0} nodes, over 1000000")]
    TooBig(u64),
}

impl From<NoMemory> for RewriteError {
    ghost use Rattle.std.specs.Prelude.{◌≡◌};
    ghost use Rattle.sx_rewrite.specs.declared.rewrite_error.RewriteError.TheVariants.{Memory};

    ghost from_gives = { λ _ e. e ≡ Memory };

    fn from(_e: NoMemory) -> RewriteError {
        RewriteError::Memory
    }
}

impl From<AllocError> for RewriteError {
    ghost use Rattle.std.specs.Prelude.{◌≡◌};
    ghost use Rattle.sx_rewrite.specs.declared.rewrite_error.RewriteError.TheVariants.{Memory};

    ghost from_gives = { λ _ e. e ≡ Memory };

    fn from(_e: AllocError) -> RewriteError {
        RewriteError::Memory
    }
}

impl<T: Drop> From<AllocFailed<T>> for RewriteError {
    ghost use Rattle.std.specs.Prelude.{◌≡◌};
    ghost use Rattle.sx_rewrite.specs.declared.rewrite_error.RewriteError.TheVariants.{Memory};

    ghost from_gives = { λ _ e. e ≡ Memory };

    fn from(_e: AllocFailed<T>) -> RewriteError {
        RewriteError::Memory
    }
}
