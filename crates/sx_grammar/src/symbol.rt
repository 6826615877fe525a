//! Symbols of productions.

ghost use Rattle.std.specs.Prelude.{◌≡◌, IfOk};

use std::alloc::Global;
use sx_term::{LexKind, NoMemory, Text};

/// What stands in a production: a literal, a lexical kind, or a part of a sort at a least level
/// from 0 to 99.
#[derive(Drop)]
pub enum Symbol {
    Lit(Text),
    Lex(LexKind),
    Part { sort: Text, least: u8 },
}

impl Symbol {
    /// An equal symbol. The one refusal is out of memory.
    pub fn copy(&self, alloc: Global) -> Result<Symbol, NoMemory>
        ensures { IfOk result (λ s. s ≡ self.now) }
    {
        match self {
            Symbol::Lit(text) => Ok(Symbol::Lit(text.copy(alloc)?)),
            Symbol::Lex(kind) => Ok(Symbol::Lex(*kind)),
            Symbol::Part { sort, least } => Ok(Symbol::Part {
                sort: sort.copy(alloc)?,
                least: *least,
            }),
        }
    }
}
