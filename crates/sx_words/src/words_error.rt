//! Why words are no command.

use std::alloc::{AllocError, AllocFailed};
use sx_term::NoMemory;
use thiserror::Error;

/// Why words are no command.
#[derive(Debug, Drop, Error)]
pub enum WordsError {
    /// Memory is lacking.
    #[error("out of memory")]
    Memory,
    /// The number of the first word that does not fit, from 1, or one more than the number of words
    /// where one is missing.
    #[error("word {0}")]
    Words(u64),
}

impl From<AllocError> for WordsError {
    ghost use Rattle.std.specs.Prelude.{◌≡◌};
    ghost use Rattle.sx_words.specs.declared.words_error.WordsError.TheVariants.{Memory};

    ghost from_gives = { λ _ e. e ≡ Memory };

    fn from(_e: AllocError) -> WordsError {
        WordsError::Memory
    }
}

impl<T: Drop> From<AllocFailed<T>> for WordsError {
    ghost use Rattle.std.specs.Prelude.{◌≡◌};
    ghost use Rattle.sx_words.specs.declared.words_error.WordsError.TheVariants.{Memory};

    ghost from_gives = { λ _ e. e ≡ Memory };

    fn from(_e: AllocFailed<T>) -> WordsError {
        WordsError::Memory
    }
}

impl From<NoMemory> for WordsError {
    ghost use Rattle.std.specs.Prelude.{◌≡◌};
    ghost use Rattle.sx_words.specs.declared.words_error.WordsError.TheVariants.{Memory};

    ghost from_gives = { λ _ e. e ≡ Memory };

    fn from(_e: NoMemory) -> WordsError {
        WordsError::Memory
    }
}
