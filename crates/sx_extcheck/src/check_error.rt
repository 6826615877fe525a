//! Why nothing is stored of a rule.

use crate::rule_refusal::RuleRefusal;
use std::alloc::AllocError;
use sx_term::NoMemory;

/// Out of memory, or a defect of the rule.
#[derive(Drop)]
pub(crate) enum CheckError {
    Memory,
    Defect(RuleRefusal),
}

impl From<NoMemory> for CheckError {
    ghost use Rattle.std.specs.Prelude.{◌≡◌};
    ghost use Rattle.sx_extcheck.specs.declared.check_error.CheckError.TheVariants.{Memory};

    ghost from_gives = { λ _ e. e ≡ Memory };

    fn from(_e: NoMemory) -> CheckError {
        CheckError::Memory
    }
}

impl From<AllocError> for CheckError {
    ghost use Rattle.std.specs.Prelude.{◌≡◌};
    ghost use Rattle.sx_extcheck.specs.declared.check_error.CheckError.TheVariants.{Memory};

    ghost from_gives = { λ _ e. e ≡ Memory };

    fn from(_e: AllocError) -> CheckError {
        CheckError::Memory
    }
}
