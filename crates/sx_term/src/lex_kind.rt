//! The kinds of lexemes.

/// The kind of a lexeme.
#[derive(Clone, Copy, PartialEq, Eq, Debug, Hash)]
pub enum LexKind {
    /// An identifier.
    Id,
    /// A number.
    Num,
    /// A string. The text of its lexeme has both quotes.
    Str,
}
