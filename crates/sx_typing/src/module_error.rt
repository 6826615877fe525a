//! Why a module is not compiled.

use std::alloc::AllocError;
use std::fmt;
use sx_notation::Unread;
use sx_term::{NoMemory, Text};
use sx_token::TokenError;
use sx_words::{GoalDefect, PrintDefect, PrintedPart};
use thiserror::Error;

/// Why a module is not compiled. Lines and columns are those of the module's file, from 1; a column
/// counts bytes. A body is refused by the variants as far as `TooBig`; by that and those after it
/// what its derivation is lowered to, and what is written of it.
#[derive(Drop, Error)]
pub enum ModuleError {
    /// Memory is lacking.
    #[error("out of memory")]
    Memory,
    /// The body has no tokens: its first defect.
    #[error("a body without tokens")]
    Token {
        line: u64,
        column: u64,
        error: TokenError,
    },
    /// The body has not one reading.
    #[error("a body without one reading")]
    Read {
        line: u64,
        column: u64,
        error: Unread,
    },
    /// The main goal has no derivation: the stuck goal, and where the part begins that it speaks
    /// of.
    #[error("a type error")]
    TypeError {
        line: u64,
        column: u64,
        stuck: GoalDefect,
    },
    /// The walk needs more tries than it may take, so many.
    #[error("the tries are spent")]
    BudgetSpent(u64),
    /// The walk comes to a goal deeper than 3,000.
    #[error("a derivation deeper than 3000")]
    DepthSpent,
    /// A term of the walk, or of what its derivation is lowered to, has this depth, over 1,000.
    #[error("a term is too deep")]
    TooDeep(u64),
    /// A term of the walk, or of what its derivation is lowered to, has so many nodes, over
    /// 1,000,000.
    #[error("a term has too many nodes")]
    TooBig(u64),
    /// What the derivation is lowered to has more nodes than it may have, so many.
    #[error("the nodes are spent")]
    RewriteSpent(u64),
    /// What the derivation is lowered to is deeper than 3,000.
    #[error("a lowered derivation deeper than 3000")]
    RewriteDeep,
    /// A printed text cannot be written: it passes a limit, or has two readings.
    #[error("a printed text cannot be written")]
    Print {
        part: PrintedPart,
        defect: PrintDefect,
    },
    /// A name in the stated signature, the first such, is this literal of the dialect.
    #[error("the stated signature has a literal as a name")]
    Captured(Text),
}

impl fmt::Debug for ModuleError {
    fn fmt<W: fmt::Write>(&self, f: &mut fmt::Formatter<W>) -> fmt::Result {
        fmt::Display::fmt(self, f)
    }
}

impl From<NoMemory> for ModuleError {
    ghost use Rattle.std.specs.Prelude.{◌≡◌};
    ghost use Rattle.sx_typing.specs.declared.module_error.ModuleError.TheVariants.{Memory};

    ghost from_gives = { λ _ e. e ≡ Memory };

    fn from(_: NoMemory) -> ModuleError {
        ModuleError::Memory
    }
}

impl From<AllocError> for ModuleError {
    ghost use Rattle.std.specs.Prelude.{◌≡◌};
    ghost use Rattle.sx_typing.specs.declared.module_error.ModuleError.TheVariants.{Memory};

    ghost from_gives = { λ _ e. e ≡ Memory };

    fn from(_: AllocError) -> ModuleError {
        ModuleError::Memory
    }
}
