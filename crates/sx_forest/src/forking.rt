//! Two readings of a span.

ghost use Rattle.std.specs.Prelude.{◌≡◌, ◌≢◌, suc, [], None, OnOk, IfOk, IfSome};
ghost use Rattle.sx_forest.specs.Readings.{plain_reading, plain_readings};
ghost use Rattle.sx_forest.specs.Tallies.{tally_of};
ghost use Rattle.sx_forest.specs.Forests.{grammar_in, tokens_in, lists_in, end_of};
ghost use Rattle.sx_forest.specs.Forests.{one_of, other_of, IsBy, IsMore, IsForest, IsShallowEntry};
ghost use Rattle.sx_forest.specs.Forests.{IsOpened, IsAt, IsReadTo, IsItemStep, IsForkAt, IsMoreAt};
ghost use Rattle.sx_forest.specs.Forests.{IsParting, AreKidsApart};

use crate::building::{build, extend, go_over, wrap};
use crate::choice::Choice;
use crate::choosing::fork_of;
use crate::entry::{Entry, Maker};
use crate::forest::Forest;
use crate::fork::Fork;
use crate::opened::{Opened, open};
use crate::reading::Reading;
use crate::span_rows::{row_of, symbol_count};
use crate::standing::Standing;
use crate::step::Step;
use crate::stepping::step_at;
use std::alloc::Global;
use sx_earley::symbol_of;
use sx_grammar::NumberedSymbol;
use sx_term::NoMemory;

/// How two readings part at the step over the symbol at the dot, or None where they do not.
fn fork_at(forest: Forest, opened: &Opened, dot: usize, place: u32, step: Step) -> Option<Fork>
    requires forest { IsForest forest }
    requires opened { IsOpened (grammar_in forest) (tokens_in forest) forest.start
        (lists_in forest) opened.now }
    requires at { IsAt (grammar_in forest) (tokens_in forest) forest.start opened.now dot place }
    requires step { IsItemStep (grammar_in forest) (tokens_in forest) forest.start
        (lists_in forest) opened.now dot place step }
    ensures fork { IfSome result (IsForkAt (grammar_in forest.entry)
        (lists_in forest.entry) opened.now dot place) }
    ensures on { result ≡ None → IsMoreAt (grammar_in forest.entry) opened.now dot place →
        IsMoreAt (grammar_in forest.entry) opened.now (suc dot) (end_of step place) }
{
    match step {
        Step::Literal => None,
        Step::Token => None,
        Step::Part(index, entry) => match symbol_of(forest.grammar, opened.head, dot) {
            Some(NumberedSymbol::Part { sort, least }) => {
                let count = symbol_count(forest.grammar, opened.head);
                let next = row_of(&opened.rows, count - dot - 1);
                let entries = forest.table.from(place);
                let choice = Choice {
                    grammar: forest.grammar,
                    entries,
                    sort,
                    least,
                    rest: next,
                };
                fork_of(choice, index, entry)
            }
            _ => unreachable!(),
        },
    }
}

/// Two different readings by the entry from the place, which has more than one.
#[cycle(build_two)]
pub(crate) fn build_two(
    alloc: Global,
    forest: Forest,
    entry: Entry,
    from: u32,
) -> Result<(Reading, Reading), NoMemory>
    requires forest { IsForest forest }
    requires entry { IsShallowEntry (grammar_in forest) (tokens_in forest) forest.start from entry }
    requires more { IsMore (tally_of entry.ways) }
    ensures one { IfOk result (λ r. IsBy (grammar_in forest.entry)
        (tokens_in forest.entry) entry.maker from entry.to (plain_reading r.0)) }
    ensures other { IfOk result (λ r. IsBy (grammar_in forest.entry)
        (tokens_in forest.entry) entry.maker from entry.to (plain_reading r.1)) }
    ensures apart { IfOk result (λ r. plain_reading r.0 ≢ plain_reading r.1) }
{
    match entry.maker {
        Maker::Variable(_) => unreachable!(),
        Maker::By(head) => {
            let opened = open(alloc, forest, entry, head, from)?;
            let mut one = Vec::new(alloc);
            let mut other = Vec::new(alloc);
            kids_apart(alloc, forest, &opened, &mut one, &mut other)?;
            let first = wrap(alloc, head, one, from, entry.to)?;
            let second = wrap(alloc, head, other, from, entry.to)?;
            Ok((first, second))
        }
    }
}

/// Adds the kids of two readings of the span, which are not the same.
#[cycle(build_two)]
fn kids_apart(
    alloc: Global,
    forest: Forest,
    opened: &Opened,
    one: &mut Vec<Reading>,
    other: &mut Vec<Reading>,
) -> Result<(), NoMemory>
    requires forest { IsForest forest }
    requires opened { IsOpened (grammar_in forest) (tokens_in forest) forest.start
        (lists_in forest) opened.now }
    requires more { IsMore (tally_of opened.now.ways) }
    requires one { one.old.items ≡ [] }
    requires other { other.old.items ≡ [] }
    ensures { OnOk result (AreKidsApart (grammar_in forest.entry)
        (tokens_in forest.entry) opened.now (plain_readings one.new.items)
        (plain_readings other.new.items)) }
{
    let mut place = opened.from;
    for dot in 0..symbol_count(forest.grammar, opened.head) {
        let step = step_at(forest, opened, dot, place);
        let here = Standing { opened, dot, place };
        if let Some(fork) = fork_at(forest, opened, dot, place, step) {
            return part(alloc, forest, here, fork, one, other);
        }
        go_over(alloc, forest, here, step, one)?;
        go_over(alloc, forest, here, step, other)?;
        place = step.end(place);
    }
    unreachable!()
}

/// Adds the kids from the dot on, where the two readings part.
#[cycle(build_two)]
fn part(
    alloc: Global,
    forest: Forest,
    here: Standing,
    fork: Fork,
    one: &mut Vec<Reading>,
    other: &mut Vec<Reading>,
) -> Result<(), NoMemory>
    requires forest { IsForest forest }
    requires opened { IsOpened (grammar_in forest) (tokens_in forest) forest.start
        (lists_in forest) here.opened.now }
    requires one { IsReadTo (grammar_in forest) (tokens_in forest) forest.start here.opened.now
        here.dot here.place (plain_readings one.old.items) }
    requires other { IsReadTo (grammar_in forest) (tokens_in forest) forest.start here.opened.now
        here.dot here.place (plain_readings other.old.items) }
    requires fork { IsForkAt (grammar_in forest) (lists_in forest) here.opened.now here.dot
        here.place fork }
    ensures { OnOk result (AreKidsApart (grammar_in forest.entry)
        (tokens_in forest.entry) here.entry.opened.now (plain_readings one.new.items)
        (plain_readings other.new.items)) }
{
    let (first, second) = pair_at(alloc, forest, fork, here.place)?;
    one.push(first)?;
    other.push(second)?;
    let next = here.dot + 1;
    extend(alloc, forest, here.opened, next, fork.one().to, one)?;
    extend(alloc, forest, here.opened, next, fork.other().to, other)
}

/// Different readings by the two entries of the fork, from the place.
#[cycle(build_two)]
pub(crate) fn pair_at(
    alloc: Global,
    forest: Forest,
    fork: Fork,
    place: u32,
) -> Result<(Reading, Reading), NoMemory>
    requires forest { IsForest forest }
    requires parting { IsParting (grammar_in forest) (tokens_in forest) forest.start place fork }
    ensures one { IfOk result (λ r. IsBy (grammar_in forest.entry) (tokens_in forest.entry)
        (one_of fork).maker place (one_of fork).to (plain_reading r.0)) }
    ensures other { IfOk result (λ r. IsBy (grammar_in forest.entry) (tokens_in forest.entry)
        (other_of fork).maker place (other_of fork).to (plain_reading r.1)) }
    ensures apart { IfOk result (λ r. plain_reading r.0 ≢ plain_reading r.1) }
{
    match fork {
        Fork::Apart(one, other) => {
            let first = build(alloc, forest, one, place)?;
            let second = build(alloc, forest, other, place)?;
            Ok((first, second))
        }
        Fork::Inside(entry) => build_two(alloc, forest, entry, place),
    }
}
