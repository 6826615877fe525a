//! Reading tokens by a grammar whose sorts have ranks.

ghost use Rattle.std.specs.Prelude.{◌≤◌, IfOk, IfErr, length};
ghost use Rattle.sx_grammar.specs.Order.{IsRanking, rank_at};
ghost use Rattle.sx_grammar.specs.Parts.{labels};
ghost use Rattle.sx_grammar.specs.ReadOne.{IsAnswer, only};
ghost use Rattle.sx_earley.specs.Shown.{plain};
ghost use Rattle.sx_earley.specs.Tokens.{plain_tokens};
ghost use Rattle.sx_earley.specs.Unknown.{HaveStems};
ghost use Rattle.sx_earley.specs.Completed.{IsSort, sort_number};
ghost use Rattle.sx_forest.specs.Readings.{plain_reading};
ghost use Rattle.sx_forest.specs.Text.{token_texts};
ghost use Rattle.sx_forest.specs.Verdict.{IsReadRefusal};
ghost use Rattle.sx_term.specs.Limits.{most_tokens};

use crate::found::Found;
use crate::read_error::ReadError;
use crate::read_shown::read_shown;
use crate::reading::Reading;
use crate::text_order::in_text_order;
use std::alloc::Global;
use sx_earley::{ReadyGrammar, Stems, number_of};
use sx_term::Sort;
use sx_token::Token;

/// The only reading of the tokens as the start sort, where the sorts have these ranks.
pub(crate) fn read_ranked(
    alloc: Global,
    by: &ReadyGrammar,
    ranks: &[u32],
    start: Sort,
    stems: &Stems,
    tokens: &[Token],
) -> Result<Reading, ReadError>
    requires short { length tokens.now ≤ most_tokens }
    requires start { IsSort by.now.parts start }
    requires stems { HaveStems stems.now tokens.now }
    requires ranking { IsRanking (plain by.now) (rank_at ranks.now) }
    ensures only { IfOk result (λ r. IsAnswer (plain by.now)
        (plain_tokens stems.now tokens.now) (sort_number start) (only (plain_reading r))) }
    ensures refused { IfErr result (IsReadRefusal (labels by.now.parts) (token_texts tokens.now)
        (plain by.now) (plain_tokens stems.now tokens.now) (sort_number start)) }
{
    let grammar = by.grammar();
    grammar.facts();
    let shown = stems.show_all(alloc, grammar, tokens)?;
    match read_shown(alloc, by, ranks, number_of(start), &shown)? {
        Found::Only(reading) => Ok(reading),
        Found::Two(one, other) => {
            let (one, other) = in_text_order(alloc, grammar, tokens, one, other)?;
            Err(ReadError::Ambiguous(one, other))
        }
    }
}
