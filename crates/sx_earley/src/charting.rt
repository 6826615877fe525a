//! The call.

ghost use Rattle.std.specs.Prelude.{◌≡◌, ◌≤◌, IfOk, Err, length};
ghost use Rattle.sx_grammar.specs.Tally.{EachOnce};
ghost use Rattle.sx_grammar.specs.ReadOne.{MoreHold, IsGreatestEnd};
ghost use Rattle.sx_earley.specs.Shown.{plain, literal_texts, tokens_of, ShownBelow};
ghost use Rattle.sx_earley.specs.Tokens.{plain_tokens};
ghost use Rattle.sx_earley.specs.Unknown.{HaveStems};
ghost use Rattle.sx_earley.specs.Openings.{HasAllOpenings};
ghost use Rattle.sx_earley.specs.Completed.{IsSort, sort_number, IsChart};
ghost use Rattle.sx_grammar.specs.ReadOne.{most_items};
ghost use Rattle.sx_term.specs.Limits.{most_tokens};

use crate::all_items::all_items;
use crate::chart_error::ChartError;
use crate::completed::Chart;
use crate::given::Given;
use crate::metas::Metas;
use crate::opening::Opening;
use crate::openings::openings;
use crate::ready_grammar::ReadyGrammar;
use crate::shown::Shown;
use crate::spanned::{complete_spans, reach};
use crate::stems::show_all;
use crate::table::Table;
use std::alloc::Global;
use sx_grammar::Grammar;
use sx_term::Sort;
use sx_token::Token;

/// The number of a plain or typed sort.
pub fn number_of(sort: Sort) -> u32
    ensures { result ≡ sort_number sort }
{
    match sort {
        Sort::Lex(_) => 0,
        Sort::Plain(number) => number,
        Sort::Typed(number) => number,
    }
}

/// The chart of what is shown, for the start sort with this number, where these are the openings of
/// the grammar.
fn chart_by(
    alloc: Global,
    grammar: &Grammar,
    openings: &Table<Opening>,
    start: u32,
    shown: &[Shown],
) -> Result<Chart, ChartError>
    requires short { length shown.now ≤ most_tokens }
    requires below { ShownBelow (length (literal_texts grammar.now)) shown.now }
    requires openings { HasAllOpenings grammar.now openings.now }
    ensures spans { IfOk result (λ c. IsChart (plain grammar.now)
        (tokens_of grammar.now shown.now) start c.spans) }
    ensures once { IfOk result (λ c. EachOnce c.spans) }
    ensures reach { IfOk result (λ c. IsGreatestEnd (plain grammar.now)
        (tokens_of grammar.now shown.now) start c.reach) }
    ensures few { IfOk result (λ _. MoreHold (plain grammar.now)
        (tokens_of grammar.now shown.now) start most_items → ⊥) }
    ensures hard { result ≡ Err ChartError.TooHard →
        MoreHold (plain grammar.now) (tokens_of grammar.now shown.now) start most_items }
{
    let given = Given {
        grammar,
        openings,
        shown,
    };
    let found = all_items(alloc, given, start)?;
    let reach = reach(&found);
    let spans = complete_spans(alloc, grammar, &found)?;
    Ok(Chart { spans, reach })
}

/// The chart of what is shown, for the start sort with this number.
pub fn chart_of(
    alloc: Global,
    by: &ReadyGrammar,
    start: u32,
    shown: &[Shown],
) -> Result<Chart, ChartError>
    requires short { length shown.now ≤ most_tokens }
    requires below { ShownBelow (length (literal_texts by.now)) shown.now }
    ensures spans { IfOk result (λ c. IsChart (plain by.now)
        (tokens_of by.now shown.now) start c.spans) }
    ensures once { IfOk result (λ c. EachOnce c.spans) }
    ensures reach { IfOk result (λ c. IsGreatestEnd (plain by.now)
        (tokens_of by.now shown.now) start c.reach) }
    ensures few { IfOk result (λ _. MoreHold (plain by.now)
        (tokens_of by.now shown.now) start most_items → ⊥) }
    ensures hard { result ≡ Err ChartError.TooHard →
        MoreHold (plain by.now) (tokens_of by.now shown.now) start most_items }
{
    let grammar = by.grammar;
    let openings = &by.openings;
    chart_by(alloc, grammar, openings, start, shown)
}

/// The chart of the tokens for the start sort: the spans that the items complete, and the greatest
/// end of any item. A literal is read by its text, whatever its number; one that is none of the
/// grammar's is read by nothing. TooHard comes exactly where more than 2,000,000 items hold.
pub fn chart(
    alloc: Global,
    grammar: &Grammar,
    start: Sort,
    metas: &Metas,
    tokens: &[Token],
) -> Result<Chart, ChartError>
    requires short { length tokens.now ≤ most_tokens }
    requires start { IsSort grammar.now.parts start }
    requires stems { HaveStems metas.now.stems.items tokens.now }
    ensures spans { IfOk result (λ c. IsChart (plain grammar.now)
        (plain_tokens metas.now.stems.items tokens.now) (sort_number start) c.spans) }
    ensures once { IfOk result (λ c. EachOnce c.spans) }
    ensures reach { IfOk result (λ c. IsGreatestEnd (plain grammar.now)
        (plain_tokens metas.now.stems.items tokens.now) (sort_number start) c.reach) }
    ensures few { IfOk result (λ _. MoreHold (plain grammar.now)
        (plain_tokens metas.now.stems.items tokens.now) (sort_number start) most_items → ⊥) }
    ensures hard { result ≡ Err ChartError.TooHard →
        MoreHold (plain grammar.now) (plain_tokens metas.now.stems.items tokens.now)
        (sort_number start) most_items }
{
    grammar.facts();
    let shown = show_all(alloc, grammar, metas, tokens)?;
    let openings = openings(alloc, grammar)?;
    chart_by(alloc, grammar, &openings, number_of(start), &shown)
}
