//! Why a line is not taken.

use std::alloc::AllocFailed;
use sx_term::NoMemory;

/// Why a line is not taken: memory is lacking, or such a line may not stand there.
#[derive(Drop)]
pub(crate) enum StepError {
    Memory,
    Order,
}

impl From<NoMemory> for StepError {
    ghost use Rattle.std.specs.Prelude.{◌≡◌};
    ghost use Rattle.sx_core.specs.declared.step_error.StepError.TheVariants.{Memory};

    ghost from_gives = { λ _ e. e ≡ Memory };

    fn from(_e: NoMemory) -> StepError {
        StepError::Memory
    }
}

impl<T: Drop> From<AllocFailed<T>> for StepError {
    ghost use Rattle.std.specs.Prelude.{◌≡◌};
    ghost use Rattle.sx_core.specs.declared.step_error.StepError.TheVariants.{Memory};

    ghost from_gives = { λ _ e. e ≡ Memory };

    fn from(_e: AllocFailed<T>) -> StepError {
        StepError::Memory
    }
}
