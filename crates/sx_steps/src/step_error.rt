//! Why a step gives nothing.

use crate::stop::Stop;
use sx_term::NoMemory;
use thiserror::Error;

/// Why a step gives nothing.
#[derive(Debug, Drop, Error)]
pub enum StepError {
    #[error("out of memory")]
    Memory,
    /// The command ends with a refusal, or with a fault of reading.
    #[error("stopped")]
    Stopped(Stop),
}

impl From<NoMemory> for StepError {
    ghost use Rattle.std.specs.Prelude.{◌≡◌};
    ghost use Rattle.sx_steps.specs.declared.step_error.StepError.TheVariants.{Memory};

    ghost from_gives = { λ _ e. e ≡ Memory };

    fn from(_e: NoMemory) -> StepError {
        StepError::Memory
    }
}
