//! Whether parts are few and low enough for a grammar.

ghost use Rattle.std.specs.Prelude.{◌≡◌, ◌<◌, ◌^◌, ◌↔◌, length, IsTrue, IfOk};
ghost use Rattle.std.specs.List.{list_any};
ghost use Rattle.sx_grammar.specs.Parts.{parts, literals};
ghost use Rattle.sx_grammar.specs.High.{asks_high, is_high};
ghost use Rattle.sx_grammar.specs.Tables.{IsWithinLimits};

use crate::grammar_parts::GrammarParts;
use crate::production::Production;
use crate::standing::literals;
use crate::symbol::Symbol;
use std::alloc::{AllocError, Global};
use sx_term::NoMemory;

/// Below this number sorts, productions and literals can be numbered by a u32.
const BOUND: usize = 0x1_0000_0000;

/// Whether the symbol asks for a level above 99.
fn asks_high(symbol: &Symbol) -> bool
    ensures { result ≡ asks_high symbol.now }
{
    match symbol {
        Symbol::Part { sort: _, least } => *least > 99,
        Symbol::Lit(_) => false,
        Symbol::Lex(_) => false,
    }
}

/// Whether one of the symbols asks for a level above 99.
fn ask_high(symbols: &[Symbol]) -> bool
    ensures { result ≡ list_any asks_high symbols.now }
{
    for symbol in symbols {
        if asks_high(symbol) {
            return true;
        }
    }
    false
}

/// Whether the production has a level above 99, or a part that asks for one.
fn is_high(production: &Production) -> bool
    ensures { result ≡ is_high production.now }
{
    production.level > 99 || ask_high(&production.symbols)
}

/// Whether one of the productions has a level above 99, or a part that asks for one.
fn are_high(productions: &[Production]) -> bool
    ensures { result ≡ list_any is_high productions.now }
{
    for production in productions {
        if is_high(production) {
            return true;
        }
    }
    false
}

/// How many literals and brackets stand in the parts.
fn literal_count(alloc: Global, from: &GrammarParts) -> Result<usize, AllocError>
    ensures { IfOk result (λ n. n ≡ length (literals (parts from.now))) }
{
    let texts = literals(alloc, from)?;
    Ok(texts.len())
}

/// Whether sorts, productions and this number are below 2^32.
fn are_few(from: &GrammarParts, literals: usize) -> bool
    ensures { IsTrue result ↔ (length from.now.sorts.items < 2 ^ 32) ×
        (length from.now.productions.items < 2 ^ 32) × (literals < 2 ^ 32) }
{
    from.sorts.len() < BOUND && from.productions.len() < BOUND && literals < BOUND
}

impl GrammarParts {
    /// Whether a grammar can be made of the parts, or why not can be told: sorts, productions and
    /// literals are fewer than 2^32, and levels are at most 99. The one refusal is out of memory.
    pub fn is_within_limits(&self, alloc: Global) -> Result<bool, NoMemory>
        ensures { IfOk result (λ r. IsTrue r ↔ IsWithinLimits (parts self.now)) }
    {
        let count = literal_count(alloc, self)?;
        let few = are_few(self, count);
        Ok(few && !are_high(&self.productions))
    }
}
