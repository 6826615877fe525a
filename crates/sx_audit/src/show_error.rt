//! Why showing ends early.

use sx_term::{NoMemory, Text};
use thiserror::Error;

/// Why no further node is shown.
#[derive(Debug, Drop, Error)]
pub enum ShowError {
    /// An auditor objects, and memory is lacking for its name.
    #[error("out of memory")]
    Memory,
    /// The auditor of this name objects to the node with this number, counted from 1.
    #[error("an auditor objects to a node")]
    Objected(Text, u64),
}

impl From<NoMemory> for ShowError {
    ghost use Rattle.std.specs.Prelude.{◌≡◌};
    ghost use Rattle.sx_audit.specs.declared.show_error.ShowError.TheVariants.{Memory};

    ghost from_gives = { λ _ e. e ≡ Memory };

    fn from(_e: NoMemory) -> ShowError {
        ShowError::Memory
    }
}
