//! Why bytes are no text.

use std::alloc::AllocError;
use std::fmt;
use thiserror::Error;

/// Why bytes are no text.
#[derive(Drop, Error)]
pub enum TextError {
    /// Memory is lacking.
    #[error("out of memory")]
    Memory,
    /// The bytes are not UTF-8: so many of them stand before the first bad sequence.
    #[error("not UTF-8")]
    NotUtf8(usize),
}

impl fmt::Debug for TextError {
    fn fmt<W: fmt::Write>(&self, f: &mut fmt::Formatter<W>) -> fmt::Result {
        fmt::Display::fmt(self, f)
    }
}

impl From<AllocError> for TextError {
    ghost use Rattle.std.specs.Prelude.{◌≡◌};
    ghost use Rattle.sx_term.specs.declared.text_error.TextError.TheVariants.{Memory};

    ghost from_gives = { λ _ e. e ≡ Memory };

    fn from(_e: AllocError) -> TextError {
        TextError::Memory
    }
}
