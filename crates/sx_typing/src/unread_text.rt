//! Why a text is not read.

use std::fmt;
use sx_notation::Unread;
use sx_term::NoMemory;
use sx_token::TokenError;
use thiserror::Error;

/// Why a text is not read. Places are those of the text.
#[derive(Drop, Error)]
pub enum UnreadText {
    /// Memory is lacking.
    #[error("out of memory")]
    Memory,
    /// It has no tokens: its first defect.
    #[error("a text without tokens")]
    Token(TokenError),
    /// Its tokens have not one reading.
    #[error("a text without one reading")]
    Read(Unread),
}

impl fmt::Debug for UnreadText {
    fn fmt<W: fmt::Write>(&self, f: &mut fmt::Formatter<W>) -> fmt::Result {
        fmt::Display::fmt(self, f)
    }
}

impl From<NoMemory> for UnreadText {
    ghost use Rattle.std.specs.Prelude.{◌≡◌};
    ghost use Rattle.sx_typing.specs.declared.unread_text.UnreadText.TheVariants.{Memory};

    ghost from_gives = { λ _ e. e ≡ Memory };

    fn from(_: NoMemory) -> UnreadText {
        UnreadText::Memory
    }
}
