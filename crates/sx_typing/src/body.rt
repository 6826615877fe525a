//! Bodies of modules.

use sx_forest::Reading;
use sx_term::Term;
use sx_token::Token;

/// A text that is read: its tokens, their only reading, and its term.
#[derive(Drop)]
pub struct Body {
    pub tokens: Vec<Token>,
    pub reading: Reading,
    pub term: Term,
}
