//! Sorts.

use crate::lex_kind::LexKind;

/// The sort of a term.
#[derive(Clone, Copy, PartialEq, Eq, Debug, Hash)]
pub enum Sort {
    /// The sort of the lexemes of this kind.
    Lex(LexKind),
    /// The plain sort with this number.
    Plain(u32),
    /// The typed sort with this number: the sort of subjects.
    Typed(u32),
}
