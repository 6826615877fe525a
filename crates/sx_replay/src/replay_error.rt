//! Why a list is not that of a derivation.

use std::fmt;
use sx_term::NoMemory;
use thiserror::Error;

/// Why a derivation could not be replayed. Entries are numbered from 1.
#[derive(Drop, Error)]
pub enum ReplayError {
    #[error("out of memory")]
    Memory,
    /// The number of the first entry that fits no derivation.
    #[error("an entry fits no derivation")]
    WrongAt(u32),
    #[error("the list ends early")]
    EndsEarly,
    /// The number of the first entry after a whole derivation.
    #[error("the list goes on after a derivation")]
    LongList(u32),
    /// The depth of a term deeper than 1,000, or the greatest number where it is more.
    #[error("a term is too deep")]
    TooDeep(u64),
    /// The number of nodes of a term that has more than 1,000,000, or the greatest number where it
    /// is more.
    #[error("a term has too many nodes")]
    TooBig(u64),
    /// The number of the first entry at a goal deeper than 3,000.
    #[error("an entry is too deep")]
    DeepList(u32),
}

impl fmt::Debug for ReplayError {
    fn fmt<W: fmt::Write>(&self, f: &mut fmt::Formatter<W>) -> fmt::Result {
        fmt::Display::fmt(self, f)
    }
}

impl From<NoMemory> for ReplayError {
    ghost use Rattle.std.specs.Prelude.{◌≡◌};
    ghost use Rattle.sx_replay.specs.declared.replay_error.ReplayError.TheVariants.{Memory};

    ghost from_gives = { λ _ e. e ≡ Memory };

    fn from(_e: NoMemory) -> ReplayError {
        ReplayError::Memory
    }
}
