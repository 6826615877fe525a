//! Why an auditor is not set.

use std::alloc::AllocError;
use sx_term::NoMemory;
use thiserror::Error;

/// Why an auditor is not set. It is then as it was before.
#[derive(Debug, Drop, Error)]
pub enum SetError {
    /// Memory is lacking.
    #[error("out of memory")]
    Memory,
    /// The auditor does not take the setting.
    #[error("no setting of this auditor")]
    Bad,
}

impl From<NoMemory> for SetError {
    ghost use Rattle.std.specs.Prelude.{◌≡◌};
    ghost use Rattle.sx_audit.specs.declared.set_error.SetError.TheVariants.{Memory};

    ghost from_gives = { λ _ e. e ≡ Memory };

    fn from(_e: NoMemory) -> SetError {
        SetError::Memory
    }
}

impl From<AllocError> for SetError {
    ghost use Rattle.std.specs.Prelude.{◌≡◌};
    ghost use Rattle.sx_audit.specs.declared.set_error.SetError.TheVariants.{Memory};

    ghost from_gives = { λ _ e. e ≡ Memory };

    fn from(_e: AllocError) -> SetError {
        SetError::Memory
    }
}
