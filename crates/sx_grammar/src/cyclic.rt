//! Sorts that derive themselves.

ghost use Rattle.std.specs.Prelude.{◌<◌, ◌^◌, length, OnOk, IfOk, IfErr};
ghost use Rattle.sx_grammar.specs.Parts.{parts, numbered};
ghost use Rattle.sx_grammar.specs.Order.{AreRanks};
ghost use Rattle.sx_grammar.specs.Tables.{AreNumbered};
ghost use Rattle.sx_grammar.specs.Made.{HasBrackets, IsGrammar, IsGrammarRefused};

use crate::grammar_error::GrammarError;
use crate::grammar_parts::GrammarParts;
use crate::numbered::NumberedProduction;
use crate::sort_ranks::{SortOrder, sort_ranks};
use std::alloc::Global;

/// The ranks of the sorts, where no sort derives itself; else Cyclic.
pub(crate) fn not_cyclic(
    alloc: Global,
    from: &GrammarParts,
    productions: &[NumberedProduction],
) -> Result<Vec<u32>, GrammarError>
    requires brackets { HasBrackets (parts from.now) }
    requires numbered { AreNumbered (parts from.now) productions.now }
    requires few { length (parts from.now).sorts < 2 ^ 32 }
    ensures good { OnOk result (IsGrammar (parts from.now)) }
    ensures ranking { IfOk result (λ v. AreRanks (numbered (parts from.now)) v.items) }
    ensures refused { IfErr result (IsGrammarRefused (parts from.now)) }
{
    match sort_ranks(alloc, productions, from.sorts.len())? {
        SortOrder::Ranked(ranks) => Ok(ranks),
        SortOrder::Cyclic(sort) => {
            let line = &from.sorts[sort];
            Err(GrammarError::Cyclic(line.name.copy(alloc)?))
        }
    }
}
