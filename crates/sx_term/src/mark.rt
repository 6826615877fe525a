//! The marks of tokens.

use crate::lex_kind::LexKind;

/// What a token is.
#[derive(Clone, Copy, PartialEq, Eq, Debug)]
pub enum Mark {
    /// A literal, by its place in the list of literals, from 0.
    Lit(u32),
    /// A lexeme of this kind.
    Lex(LexKind),
    /// A metavariable of a rule: `~` and its word.
    Meta,
}
