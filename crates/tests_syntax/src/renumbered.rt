//! Tokens whose literals are not numbered as the grammar numbers them by which they are read.

use crate::samples::{Sample, grammar_of};
use crate::symbols::Unmade;
use std::alloc::Global;
use sx_grammar::Grammar;
use sx_term::Mark;
use sx_token::{Token, tokens};

/// A text that is cut by a sample's literals, each of which then gets the number.
#[derive(Clone, Copy)]
pub(crate) struct Cut<'a> {
    pub by: Sample,
    pub bytes: &'a [u8],
    pub number: u32,
}

/// The tokens of a short text.
pub(crate) fn cut_text(
    alloc: Global,
    grammar: &Grammar,
    bytes: &[u8],
) -> Result<Vec<Token>, Unmade> {
    if bytes.len() > 262144 {
        return Err(Unmade);
    }
    grammar.facts();
    match tokens(alloc, bytes, grammar.literals(), false) {
        Ok(found) => Ok(found),
        Err(_) => Err(Unmade),
    }
}

/// Gives each literal the number.
fn number_all(tokens: &mut [Token], number: u32) {
    for token in tokens {
        if let Mark::Lit(_) = token.mark {
            token.mark = Mark::Lit(number);
        }
    }
}

/// The tokens.
pub(crate) fn cut_as(alloc: Global, cut: Cut) -> Result<Vec<Token>, Unmade> {
    let grammar = grammar_of(alloc, cut.by)?;
    let found = cut_text(alloc, &grammar, cut.bytes);
    drop(grammar);
    let mut tokens = found?;
    number_all(&mut tokens, cut.number);
    Ok(tokens)
}
