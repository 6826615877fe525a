//! Why the notation of languages is refused.

ghost use Rattle.sx_notation.specs.Refusals.{IsGrammarRefusal};

use crate::unread::Unread;
use std::alloc::{AllocError, AllocFailed};
use std::fmt;
use sx_grammar::GrammarError;
use sx_lines::Kind;
use sx_rules::RuleError;
use sx_term::{NoMemory, Text};
use sx_token::TokenError;
use thiserror::Error;

/// Why a language file or a line is refused. Lines have the numbers that the caller gave them, and
/// lines of a file count from 1.
#[derive(Drop, Error)]
pub enum NotationError {
    /// Memory is lacking.
    #[error("out of memory")]
    Memory,
    /// The file is not UTF-8; as many bytes stand before the first bad sequence.
    #[error("not UTF-8")]
    NotUtf8(usize),
    /// The line is bad, and what is bad about it.
    #[error("a bad line")]
    Notation {
        line: u32,
        kind: Kind,
    },
    /// The line has no tokens, and its first defect.
    #[error("a line without tokens")]
    Token {
        line: u32,
        error: TokenError,
    },
    /// The sorts, productions and forms are no grammar, and why.
    #[error("no grammar")]
    Grammar(GrammarError),
    /// The tokens of the line have not one reading, and why. Places count the bytes of the line
    /// from 0.
    #[error("a line without one reading")]
    Read {
        line: u32,
        error: Unread,
    },
    /// The rules are no rule set, and why; and the name of the variable that is not bound, exactly
    /// where that is why.
    #[error("no rule set")]
    Rules {
        error: RuleError,
        variable: Option<Text>,
    },
}

/// The refusal of parts that make no grammar.
pub fn grammar_error(error: GrammarError) -> NotationError
    ensures { IsGrammarRefusal error result }
{
    match error {
        GrammarError::Memory => NotationError::Memory,
        error => NotationError::Grammar(error),
    }
}

impl fmt::Debug for NotationError {
    fn fmt<W: fmt::Write>(&self, f: &mut fmt::Formatter<W>) -> fmt::Result {
        fmt::Display::fmt(self, f)
    }
}

impl From<NoMemory> for NotationError {
    ghost use Rattle.std.specs.Prelude.{◌≡◌};
    ghost use Rattle.sx_notation.specs.declared.notation_error.NotationError.TheVariants.{Memory};

    ghost from_gives = { λ _ e. e ≡ Memory };

    fn from(_: NoMemory) -> NotationError {
        NotationError::Memory
    }
}

impl From<AllocError> for NotationError {
    ghost use Rattle.std.specs.Prelude.{◌≡◌};
    ghost use Rattle.sx_notation.specs.declared.notation_error.NotationError.TheVariants.{Memory};

    ghost from_gives = { λ _ e. e ≡ Memory };

    fn from(_: AllocError) -> NotationError {
        NotationError::Memory
    }
}

impl<T: Drop> From<AllocFailed<T>> for NotationError {
    ghost use Rattle.std.specs.Prelude.{◌≡◌};
    ghost use Rattle.sx_notation.specs.declared.notation_error.NotationError.TheVariants.{Memory};

    ghost from_gives = { λ _ e. e ≡ Memory };

    fn from(_: AllocFailed<T>) -> NotationError {
        NotationError::Memory
    }
}
