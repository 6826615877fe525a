//! Productions with numbers in place of names.

ghost use Rattle.std.specs.Prelude.{◌≡◌, IfOk};
ghost use Rattle.sx_grammar.specs.Numbered.{bare};

use std::alloc::{AllocError, Global};
use sx_term::LexKind;

/// A symbol: a literal by its place in the literals of the grammar, a lexical kind, or a part of a
/// sort at a least level.
#[derive(Clone, Copy)]
pub enum NumberedSymbol {
    Lit(u32),
    Lex(LexKind),
    Part { sort: u32, least: u8 },
}

/// A production: the number of its sort, its level, and its symbols in order.
#[derive(Drop)]
pub struct NumberedProduction {
    pub sort: u32,
    pub level: u8,
    pub symbols: Vec<NumberedSymbol>,
}

impl NumberedProduction {
    /// An equal production.
    pub(crate) fn copy(&self, alloc: Global) -> Result<NumberedProduction, AllocError>
        ensures { IfOk result (λ p. bare p ≡ bare self.now) }
    {
        Ok(NumberedProduction {
            sort: self.sort,
            level: self.level,
            symbols: Vec::from_slice(alloc, &self.symbols)?,
        })
    }
}
