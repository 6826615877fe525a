//! Why a text has no tokens.

use std::alloc::{AllocError, AllocFailed};
use std::fmt;
use sx_term::NoMemory;
use thiserror::Error;

/// Out of memory, or the first defect of a text. Places count bytes from 0.
#[derive(Drop, Error)]
pub enum TokenError {
    #[error("out of memory")]
    Memory,
    /// The bytes are not UTF-8; as many bytes stand before the first bad sequence.
    #[error("not UTF-8")]
    NotUtf8(u32),
    /// No blank, comment, token or quote begins at this place.
    #[error("bad token")]
    BadToken(u32),
    /// A 10,001st token is completed.
    #[error("more than 10000 tokens")]
    TooManyTokens,
    /// The quote at this place has no closing quote in its line.
    #[error("string without end")]
    OpenString(u32),
}

impl fmt::Debug for TokenError {
    fn fmt<W: fmt::Write>(&self, f: &mut fmt::Formatter<W>) -> fmt::Result {
        fmt::Display::fmt(self, f)
    }
}

impl From<AllocError> for TokenError {
    ghost use Rattle.std.specs.Prelude.{◌≡◌};
    ghost use Rattle.sx_token.specs.declared.token_error.TokenError.TheVariants.{Memory};

    ghost from_gives = { λ _ e. e ≡ Memory };

    fn from(_: AllocError) -> TokenError {
        TokenError::Memory
    }
}

impl<T: Drop> From<AllocFailed<T>> for TokenError {
    ghost use Rattle.std.specs.Prelude.{◌≡◌};
    ghost use Rattle.sx_token.specs.declared.token_error.TokenError.TheVariants.{Memory};

    ghost from_gives = { λ _ e. e ≡ Memory };

    fn from(_: AllocFailed<T>) -> TokenError {
        TokenError::Memory
    }
}

impl From<NoMemory> for TokenError {
    ghost use Rattle.std.specs.Prelude.{◌≡◌};
    ghost use Rattle.sx_token.specs.declared.token_error.TokenError.TheVariants.{Memory};

    ghost from_gives = { λ _ e. e ≡ Memory };

    fn from(_: NoMemory) -> TokenError {
        TokenError::Memory
    }
}
