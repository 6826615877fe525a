//! Readings of all tokens.

ghost use Rattle.std.specs.Prelude.{◌≢◌, ◌≤◌, IfOk, length};
ghost use Rattle.sx_grammar.specs.Reading as plain;
ghost use Rattle.sx_grammar.specs.Reading.{ReadsWhole, reading_depth};
ghost use Rattle.sx_forest.specs.Readings.{plain_reading};
ghost use Rattle.sx_forest.specs.Tallies.{ways_of, IsLastRow};
ghost use Rattle.sx_forest.specs.Forests.{grammar_in, tokens_in, IsForest};
ghost use Rattle.sx_term.specs.Limits.{most_depth};

use crate::building::build;
use crate::choice::Choice;
use crate::choosing::{first_usable, fork_of};
use crate::forest::Forest;
use crate::forking::pair_at;
use crate::reading::Reading;
use crate::row::Row;
use std::alloc::Global;
use sx_term::NoMemory;

/// A reading of all tokens, where there is one. The row is that of no symbols, up to the end.
pub(crate) fn first_reading(alloc: Global, forest: Forest, row: &Row) -> Result<Reading, NoMemory>
    requires forest { IsForest forest }
    requires row { IsLastRow (length forest.shown.now) (ways_of row.now) }
    requires low { (r : plain.Reading) → ReadsWhole (grammar_in forest)
        (tokens_in forest) forest.start r → reading_depth r ≤ most_depth }
    requires some { (r : plain.Reading) × ReadsWhole (grammar_in forest)
        (tokens_in forest) forest.start r }
    ensures { IfOk result (λ r. ReadsWhole (grammar_in forest.entry)
        (tokens_in forest.entry) forest.entry.start (plain_reading r)) }
{
    forest.grammar.facts();
    let entries = forest.table.from(0);
    let choice = Choice {
        grammar: forest.grammar,
        entries,
        sort: forest.start,
        least: 0,
        rest: row,
    };
    match first_usable(choice, 0) {
        Some((_, entry)) => build(alloc, forest, entry, 0),
        None => unreachable!(),
    }
}

/// Two different readings of all tokens, where there is more than one. The row is that of no
/// symbols, up to the end.
pub(crate) fn two_readings(
    alloc: Global,
    forest: Forest,
    row: &Row,
) -> Result<(Reading, Reading), NoMemory>
    requires forest { IsForest forest }
    requires row { IsLastRow (length forest.shown.now) (ways_of row.now) }
    requires low { (r : plain.Reading) → ReadsWhole (grammar_in forest)
        (tokens_in forest) forest.start r → reading_depth r ≤ most_depth }
    requires two { (one : plain.Reading) × (other : plain.Reading) ×
        ReadsWhole (grammar_in forest) (tokens_in forest) forest.start one ×
        ReadsWhole (grammar_in forest) (tokens_in forest) forest.start other × (one ≢ other) }
    ensures one { IfOk result (λ r. ReadsWhole (grammar_in forest.entry)
        (tokens_in forest.entry) forest.entry.start (plain_reading r.0)) }
    ensures other { IfOk result (λ r. ReadsWhole (grammar_in forest.entry)
        (tokens_in forest.entry) forest.entry.start (plain_reading r.1)) }
    ensures apart { IfOk result (λ r. plain_reading r.0 ≢ plain_reading r.1) }
{
    forest.grammar.facts();
    let entries = forest.table.from(0);
    let choice = Choice {
        grammar: forest.grammar,
        entries,
        sort: forest.start,
        least: 0,
        rest: row,
    };
    match first_usable(choice, 0) {
        Some((index, entry)) => match fork_of(choice, index, entry) {
            Some(fork) => pair_at(alloc, forest, fork, 0),
            None => unreachable!(),
        },
        None => unreachable!(),
    }
}
