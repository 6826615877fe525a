//! Grammars that are ready for charts.

ghost use Rattle.std.specs.Prelude.{◌≡◌, IfOk};

use crate::opening::Opening;
use crate::openings::openings;
use crate::table::Table;
use std::alloc::Global;
use std::marker::Model;
use sx_grammar::Grammar;
use sx_term::NoMemory;

/// A grammar with what begins its productions, for the charts of any number of token
/// lists.
#[derive(Drop)]
pub struct ReadyGrammar<'a> {
    pub(crate) grammar: &'a Grammar,
    pub(crate) openings: Table<Opening>,
}

impl<'a> Model for ReadyGrammar<'a> {
    ghost use Rattle.sx_grammar.specs.Tables.{GrammarData};
    ghost use Rattle.sx_earley.specs.Openings.{HasAllOpenings};

    ghost Value = { GrammarData };

    ghost view = { λ r. r.grammar.now };

    ghost invariant = { λ r. HasAllOpenings r.grammar.now r.openings };
}

impl<'a> ReadyGrammar<'a> {
    /// The grammar with what begins its productions.
    pub fn new(alloc: Global, grammar: &'a Grammar) -> Result<ReadyGrammar<'a>, NoMemory>
        ensures { IfOk result (λ r. r ≡ grammar.now) }
    {
        Ok(ReadyGrammar {
            grammar,
            openings: openings(alloc, grammar)?,
        })
    }

    /// The grammar.
    pub fn grammar(&self) -> &'a Grammar
        ensures { result.now ≡ self.now }
    {
        self.grammar
    }
}
