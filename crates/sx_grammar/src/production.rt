//! Productions.

ghost use Rattle.std.specs.Prelude.{◌≡◌, IfOk};
ghost use Rattle.sx_grammar.specs.Parts.{line};

use crate::symbol::Symbol;
use std::alloc::Global;
use sx_term::{NoMemory, Text};

/// A production: its label, its sort, its level from 0 to 99, and its symbols in order.
#[derive(Drop)]
pub struct Production {
    pub label: Text,
    pub sort: Text,
    pub level: u8,
    pub symbols: Vec<Symbol>,
}

/// Equal symbols.
fn copy_symbols(alloc: Global, symbols: &[Symbol]) -> Result<Vec<Symbol>, NoMemory>
    ensures { IfOk result (λ v. v.items ≡ symbols.now) }
{
    let mut copies = Vec::with_capacity(alloc, symbols.len())?;
    for i in 0..symbols.len() {
        copies.push(symbols[i].copy(alloc)?)?;
    }
    Ok(copies)
}

impl Production {
    /// An equal production. The one refusal is out of memory.
    pub fn copy(&self, alloc: Global) -> Result<Production, NoMemory>
        ensures { IfOk result (λ p. line p ≡ line self.now) }
    {
        Ok(Production {
            label: self.label.copy(alloc)?,
            sort: self.sort.copy(alloc)?,
            level: self.level,
            symbols: copy_symbols(alloc, &self.symbols)?,
        })
    }
}
