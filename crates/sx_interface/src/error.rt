//! Why a header or an interface is refused.

use std::alloc::{AllocError, AllocFailed};
use std::fmt;
use sx_lines::NoLine;
use sx_term::NoMemory;
use thiserror::Error;

/// Why a header or an interface is refused.
#[derive(Drop, Error)]
pub enum HeaderError {
    /// Memory is lacking.
    #[error("out of memory")]
    Memory,
    /// The bytes are not UTF-8: how many bytes stand before the first bad sequence.
    #[error("not UTF-8")]
    NotUtf8(usize),
    /// The number of the first line that is not as defined, or 1 more than the number of lines
    /// where one is missing.
    #[error("a bad line")]
    Header(u32),
    /// The number of another version, in the first line of an interface.
    #[error("another version")]
    Version(u64),
}

impl fmt::Debug for HeaderError {
    fn fmt<W: fmt::Write>(&self, f: &mut fmt::Formatter<W>) -> fmt::Result {
        fmt::Display::fmt(self, f)
    }
}

impl From<AllocError> for HeaderError {
    ghost use Rattle.std.specs.Prelude.{◌≡◌};
    ghost use Rattle.sx_interface.specs.declared.error.HeaderError.TheVariants.{Memory};

    ghost from_gives = { λ _ e. e ≡ Memory };

    fn from(_e: AllocError) -> HeaderError {
        HeaderError::Memory
    }
}

impl<T: Drop> From<AllocFailed<T>> for HeaderError {
    ghost use Rattle.std.specs.Prelude.{◌≡◌};
    ghost use Rattle.sx_interface.specs.declared.error.HeaderError.TheVariants.{Memory};

    ghost from_gives = { λ _ e. e ≡ Memory };

    fn from(_e: AllocFailed<T>) -> HeaderError {
        HeaderError::Memory
    }
}

impl From<NoMemory> for HeaderError {
    ghost use Rattle.std.specs.Prelude.{◌≡◌};
    ghost use Rattle.sx_interface.specs.declared.error.HeaderError.TheVariants.{Memory};

    ghost from_gives = { λ _ e. e ≡ Memory };

    fn from(_e: NoMemory) -> HeaderError {
        HeaderError::Memory
    }
}

impl From<NoLine> for HeaderError {
    ghost use Rattle.std.specs.Prelude.{◌≡◌};
    ghost use Rattle.sx_interface.specs.declared.error.HeaderError.TheVariants.{Header};

    ghost from_gives = { λ n e. e ≡ Header n.number };

    fn from(n: NoLine) -> HeaderError {
        HeaderError::Header(n.number)
    }
}
