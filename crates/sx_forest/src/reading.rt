//! Readings of tokens.

/// A reading of tokens by a grammar. Places count tokens from 0: `from` is the first token that is
/// read, and `to` the one after the last. The kids of a node are the readings of the symbols that
/// are not literals.
#[derive(Drop)]
pub enum Reading {
    /// By the production with this label.
    Node {
        label: u32,
        kids: Vec<Reading>,
        from: u32,
        to: u32,
    },
    /// A bracket pair round a reading of the same sort.
    Bracket {
        inner: Box<Reading>,
        from: u32,
        to: u32,
    },
    /// The lexeme that is the token with this number.
    Lex {
        token: u32,
    },
    /// The metavariable that is the token with this number.
    Var {
        token: u32,
    },
}
