//! Ranks of the sorts: each steps only to sorts of lower ranks.

ghost use Rattle.std.specs.Prelude.{◌≡◌, ◌<◌, ◌^◌, length, map, Some, MatchOption, IfOk};
ghost use Rattle.sx_grammar.specs.Grammar.{Grammar};
ghost use Rattle.sx_grammar.specs.Cyclic.{IsNotCyclic};
ghost use Rattle.sx_grammar.specs.Numbered.{AreOf};
ghost use Rattle.sx_grammar.specs.Order.{AreRanks};
ghost use Rattle.sx_grammar.specs.Ranks.{HasRanksBelow};
ghost use Rattle.sx_grammar.specs.Cycles.{AreStepsOf, AreStepsBelow, AreStepRules, LacksRank};
ghost use Rattle.sx_grammar.specs.Cycles.{HaveSortsBelow, HavePartsBelow};
ghost use Rattle.sx_grammar.specs.Sorting.{IsSortOrder};

use crate::cycle::{first_cyclic, list};
use crate::empty_sorts::empty_sorts;
use crate::follow::follow;
use crate::numbered::NumberedProduction;
use crate::rule::Rule;
use crate::steps::steps;
use std::alloc::{AllocError, Global};

/// A rule for each sort: it needs those to which the sort steps.
fn step_rules(alloc: Global, steps: &[Vec<usize>]) -> Result<Vec<Rule>, AllocError>
    ensures { IfOk result (λ v. AreStepRules steps.now (length steps.now) v.items) }
{
    let mut rules = Vec::new(alloc);
    for head in 0..steps.len() {
        let needs = Vec::from_slice(alloc, list(steps, head))?;
        rules.push(Rule { head, needs })?;
    }
    Ok(rules)
}

/// The ranks, where each number has one.
fn all_ranks(alloc: Global, ranks: &[Option<usize>]) -> Result<Option<Vec<u32>>, AllocError>
    requires { HasRanksBelow (2 ^ 32) ranks.now }
    ensures { IfOk result (λ r. MatchOption r (LacksRank ranks.now)
        (λ v. map Some v.items ≡ ranks.now)) }
{
    let mut out = Vec::new(alloc);
    for rank in ranks {
        let Some(number) = rank else {
            return Ok(None);
        };
        out.push(*number as u32)?;
    }
    Ok(Some(out))
}

/// The ranks of the sorts, or None where a sort derives itself.
fn ranks(alloc: Global, steps: &[Vec<usize>]) -> Result<Option<Vec<u32>>, AllocError>
    requires below { AreStepsBelow (length steps.now) steps.now }
    requires few { length steps.now < 2 ^ 32 }
    ensures { IfOk result (λ r. (g : Grammar) → AreStepsOf g steps.now →
        MatchOption r (¬ (IsNotCyclic g)) (λ v. AreRanks g v.items)) }
{
    let rules = step_rules(alloc, steps)?;
    let found = follow(alloc, &rules, steps.len())?;
    all_ranks(alloc, &found)
}

/// The ranks of the sorts, or the first sort that derives itself.
pub(crate) enum SortOrder {
    Ranked(Vec<u32>),
    Cyclic(usize),
}

/// The ranks of the sorts, or the first sort that derives itself.
pub(crate) fn sort_ranks(
    alloc: Global,
    productions: &[NumberedProduction],
    sorts: usize,
) -> Result<SortOrder, AllocError>
    requires heads { HaveSortsBelow sorts productions.now }
    requires parts { HavePartsBelow sorts productions.now }
    requires few { sorts < 2 ^ 32 }
    ensures { IfOk result (λ order. (g : Grammar) → AreOf g productions.now →
        IsSortOrder g sorts order) }
{
    let empty = empty_sorts(alloc, productions, sorts)?;
    let steps = steps(alloc, productions, &empty, sorts)?;
    if let Some(ranks) = ranks(alloc, &steps)? {
        return Ok(SortOrder::Ranked(ranks));
    }
    match first_cyclic(alloc, &steps)? {
        Some(sort) => Ok(SortOrder::Cyclic(sort)),
        None => unreachable!(),
    }
}
