//! Why a core file is refused.

ghost use Rattle.std.specs.Prelude.{◌≡◌};
ghost use Rattle.sx_core.specs.declared.error.CoreFileError.TheVariants as errors;

use std::alloc::AllocError;
use std::fmt;
use sx_lines::Kind;
use sx_rules::RuleError;
use sx_term::NoMemory;
use thiserror::Error;

/// Why a core file is refused. Lines count from 1.
#[derive(Drop, Error)]
pub enum CoreFileError {
    /// Memory is lacking.
    #[error("out of memory")]
    Memory,
    /// The bytes are not UTF-8: how many bytes stand before the first bad sequence.
    #[error("not UTF-8")]
    NotUtf8(usize),
    /// The first bad line, or 1 more than the number of lines where one is missing, and what is bad
    /// about it.
    #[error("a bad line")]
    Notation { line: u32, kind: Kind },
    /// The first bad line where it has a core text that is too deep, and the depth of that text,
    /// which is over 1,000.
    #[error("a core text is too deep")]
    TooDeep { line: u32, depth: u64 },
    /// The rules of the file are no rule set.
    #[error("the rules are no rule set")]
    Rules(RuleError),
}

/// The refusal of a line.
pub(crate) fn bad_line(number: u32, kind: Kind) -> CoreFileError
    ensures { result ≡ errors.Notation number kind }
{
    CoreFileError::Notation { line: number, kind }
}

impl fmt::Debug for CoreFileError {
    fn fmt<W: fmt::Write>(&self, f: &mut fmt::Formatter<W>) -> fmt::Result {
        fmt::Display::fmt(self, f)
    }
}

impl From<NoMemory> for CoreFileError {
    ghost use Rattle.std.specs.Prelude.{◌≡◌};
    ghost use Rattle.sx_core.specs.declared.error.CoreFileError.TheVariants.{Memory};

    ghost from_gives = { λ _ e. e ≡ Memory };

    fn from(_e: NoMemory) -> CoreFileError {
        CoreFileError::Memory
    }
}

impl From<AllocError> for CoreFileError {
    ghost use Rattle.std.specs.Prelude.{◌≡◌};
    ghost use Rattle.sx_core.specs.declared.error.CoreFileError.TheVariants.{Memory};

    ghost from_gives = { λ _ e. e ≡ Memory };

    fn from(_e: AllocError) -> CoreFileError {
        CoreFileError::Memory
    }
}
