//! The step that a reading takes at a symbol.

ghost use Rattle.std.specs.Prelude.{◌<◌, length};
ghost use Rattle.sx_forest.specs.Forests.{grammar_in, tokens_in, lists_in, symbols_of, IsForest};
ghost use Rattle.sx_forest.specs.Forests.{IsOpened, IsAt, IsItemStep};

use crate::choice::Choice;
use crate::choosing::first_usable;
use crate::forest::Forest;
use crate::opened::Opened;
use crate::span_rows::{row_of, symbol_count};
use crate::step::Step;
use sx_earley::symbol_of;
use sx_grammar::NumberedSymbol;

/// The step over the symbol at the dot, where the symbols before it are read up to the place and
/// the others can be read from there.
pub(crate) fn step_at(forest: Forest, opened: &Opened, dot: usize, place: u32) -> Step
    requires forest { IsForest forest }
    requires opened { IsOpened (grammar_in forest) (tokens_in forest) forest.start
        (lists_in forest) opened.now }
    requires at { IsAt (grammar_in forest) (tokens_in forest) forest.start opened.now dot place }
    requires within { dot < length (symbols_of (grammar_in forest) opened.now.head) }
    ensures { IsItemStep (grammar_in forest.entry) (tokens_in forest.entry) forest.entry.start
        (lists_in forest.entry) opened.now dot place result }
{
    let count = symbol_count(forest.grammar, opened.head);
    let next = row_of(&opened.rows, count - dot - 1);
    match symbol_of(forest.grammar, opened.head, dot) {
        Some(NumberedSymbol::Lit(_)) => Step::Literal,
        Some(NumberedSymbol::Lex(_)) => Step::Token,
        Some(NumberedSymbol::Part { sort, least }) => {
            let entries = forest.table.from(place);
            let choice = Choice {
                grammar: forest.grammar,
                entries,
                sort,
                least,
                rest: next,
            };
            match first_usable(choice, 0) {
                Some((index, entry)) => Step::Part(index, entry),
                None => unreachable!(),
            }
        }
        None => unreachable!(),
    }
}
