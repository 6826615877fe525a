//! Reading tokens by a grammar.

ghost use Rattle.std.specs.Prelude.{◌≤◌, IfOk, IfErr, length};
ghost use Rattle.sx_grammar.specs.Parts.{labels};
ghost use Rattle.sx_grammar.specs.ReadOne.{IsAnswer, only};
ghost use Rattle.sx_earley.specs.Shown.{plain};
ghost use Rattle.sx_earley.specs.Tokens.{plain_tokens};
ghost use Rattle.sx_earley.specs.Unknown.{HaveStems};
ghost use Rattle.sx_earley.specs.Completed.{IsSort, sort_number};
ghost use Rattle.sx_forest.specs.Readings.{plain_reading};
ghost use Rattle.sx_forest.specs.Text.{token_texts};
ghost use Rattle.sx_forest.specs.Verdict.{IsReadRefusal};
ghost use Rattle.sx_term.specs.Limits.{most_tokens};

use crate::ranked::read_ranked;
use crate::read_error::ReadError;
use crate::reading::Reading;
use std::alloc::Global;
use sx_earley::{Metas, ReadyGrammar, Stems};
use sx_grammar::Grammar;
use sx_term::Sort;
use sx_token::Token;

/// The only reading of the tokens as the start sort. A literal is read by its text, whatever its
/// number; one that is none of the grammar's is read by nothing. It is an error where more than
/// 2,000,000 items hold, where there is no reading, where a reading is deeper than 1,000 (the depth
/// of a lexeme and of a variable is 1, and each node and each bracket pair adds 1), and where there
/// are two.
pub fn read_one(
    alloc: Global,
    grammar: &Grammar,
    start: Sort,
    metas: &Metas,
    tokens: &[Token],
) -> Result<Reading, ReadError>
    requires short { length tokens.now ≤ most_tokens }
    requires start { IsSort grammar.now.parts start }
    requires stems { HaveStems metas.now.stems.items tokens.now }
    ensures only { IfOk result (λ r. IsAnswer (plain grammar.now)
        (plain_tokens metas.now.stems.items tokens.now) (sort_number start)
        (only (plain_reading r))) }
    ensures refused { IfErr result (IsReadRefusal (labels grammar.now.parts)
        (token_texts tokens.now)
        (plain grammar.now) (plain_tokens metas.now.stems.items tokens.now) (sort_number start)) }
{
    let by = ReadyGrammar::new(alloc, grammar)?;
    let stems = Stems::new(alloc, metas)?;
    read_one_by(alloc, &by, start, &stems, tokens)
}

/// The same by a grammar that is ready for charts and a table of the stems, which serve for any
/// number of token lists.
pub fn read_one_by(
    alloc: Global,
    by: &ReadyGrammar,
    start: Sort,
    stems: &Stems,
    tokens: &[Token],
) -> Result<Reading, ReadError>
    requires short { length tokens.now ≤ most_tokens }
    requires start { IsSort by.now.parts start }
    requires stems { HaveStems stems.now tokens.now }
    ensures only { IfOk result (λ r. IsAnswer (plain by.now)
        (plain_tokens stems.now tokens.now) (sort_number start) (only (plain_reading r))) }
    ensures refused { IfErr result (IsReadRefusal (labels by.now.parts) (token_texts tokens.now)
        (plain by.now) (plain_tokens stems.now tokens.now) (sort_number start)) }
{
    let grammar = by.grammar();
    read_ranked(alloc, by, grammar.ranks(), start, stems, tokens)
}
