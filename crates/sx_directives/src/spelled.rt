//! Sorts and symbols as they are spelled in a line.

use sx_term::{LexKind, Role, Text};

/// A sort as it is spelled in a symbol: a lexical one, or a name with a least level from 0 to 99.
/// `id@5` names a sort `id`, which no sort line may name.
#[derive(Drop)]
pub enum SpelledSort {
    Lex(LexKind),
    Named { sort: Text, least: u8 },
}

/// A symbol of a form: a literal, or a place with what it is for and its sort.
#[derive(Drop)]
pub enum FormSymbol {
    Lit(Text),
    Place { role: Role, sort: SpelledSort },
}
