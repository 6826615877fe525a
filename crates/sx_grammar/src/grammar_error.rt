//! Why parts are no grammar.

use std::alloc::{AllocError, AllocFailed};
use std::fmt;
use sx_term::{NoMemory, Text};
use thiserror::Error;

/// Out of memory, or the first refusal that holds of the parts.
#[derive(Drop, Error)]
pub enum GrammarError {
    #[error("out of memory")]
    Memory,
    /// The text is a literal or a bracket, and neither a word nor symbol characters without `//`.
    #[error("a bad literal")]
    BadLiteral(Text),
    /// Two sorts have the name.
    #[error("a sort stands twice")]
    SameSort(Text),
    /// The name is not that of a sort.
    #[error("a name is not that of a sort")]
    UnknownSort(Text),
    /// Two productions have the label.
    #[error("a label stands twice")]
    SameLabel(Text),
    /// The production with this label is of a plain sort and has a typed part.
    #[error("a plain production has a typed part")]
    PlainHasTyped(Text),
    /// A part asks for a level of the sort above that of one of its productions, and the sort has
    /// no brackets.
    #[error("a sort has no brackets")]
    NoBrackets(Text),
    /// The sort derives itself.
    #[error("a sort derives itself")]
    Cyclic(Text),
}

impl fmt::Debug for GrammarError {
    fn fmt<W: fmt::Write>(&self, f: &mut fmt::Formatter<W>) -> fmt::Result {
        fmt::Display::fmt(self, f)
    }
}

impl From<AllocError> for GrammarError {
    ghost use Rattle.std.specs.Prelude.{◌≡◌};
    ghost use Rattle.sx_grammar.specs.declared.grammar_error.GrammarError.TheVariants.{Memory};

    ghost from_gives = { λ _ e. e ≡ Memory };

    fn from(_: AllocError) -> GrammarError {
        GrammarError::Memory
    }
}

impl<T: Drop> From<AllocFailed<T>> for GrammarError {
    ghost use Rattle.std.specs.Prelude.{◌≡◌};
    ghost use Rattle.sx_grammar.specs.declared.grammar_error.GrammarError.TheVariants.{Memory};

    ghost from_gives = { λ _ e. e ≡ Memory };

    fn from(_: AllocFailed<T>) -> GrammarError {
        GrammarError::Memory
    }
}

impl From<NoMemory> for GrammarError {
    ghost use Rattle.std.specs.Prelude.{◌≡◌};
    ghost use Rattle.sx_grammar.specs.declared.grammar_error.GrammarError.TheVariants.{Memory};

    ghost from_gives = { λ _ e. e ≡ Memory };

    fn from(_: NoMemory) -> GrammarError {
        GrammarError::Memory
    }
}
