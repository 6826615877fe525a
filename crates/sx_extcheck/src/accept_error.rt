//! Why no extension is added.

use crate::rule_refusal::RuleRefusal;
use std::alloc::AllocFailed;
use sx_term::Text;
use thiserror::Error;

/// Why an extension is not added to an accepted set.
#[derive(Debug, Drop, Error)]
pub enum AcceptError {
    /// Memory is lacking.
    #[error("out of memory")]
    Memory,
    /// The rule with this name, the first that is refused, has this defect.
    #[error("a rule is refused")]
    Rule(Text, RuleRefusal),
}

impl<T: Drop> From<AllocFailed<T>> for AcceptError {
    ghost use Rattle.std.specs.Prelude.{◌≡◌};
    ghost use Rattle.sx_extcheck.specs.declared.accept_error.AcceptError.TheVariants.{Memory};

    ghost from_gives = { λ _ e. e ≡ Memory };

    fn from(_e: AllocFailed<T>) -> AcceptError {
        AcceptError::Memory
    }
}
