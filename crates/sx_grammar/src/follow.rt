//! What follows from rules.

ghost use Rattle.std.specs.Prelude.{[], ◌≡◌, ◌<◌, length, slice_get, slice_index, Some};
ghost use Rattle.std.specs.Prelude.{MatchOption, OnOk, IfOk};
ghost use Rattle.sx_grammar.specs.declared.rule.Rule.{Rule as RuleOf};
ghost use Rattle.sx_grammar.specs.Ranks.{HasRank, AreRulesBelow, AreRankedTo, IsFounded};
ghost use Rattle.sx_grammar.specs.Ranks.{IsComplete, HasRanksBelow, waiting_at};
ghost use Rattle.sx_grammar.specs.Settled.{IsSoundAt, Settles, SettlesTo, Goes};

use crate::progress::{Progress, Waiting, blank, has_rank, learn, take_waiting, wait};
use crate::rule::Rule;
use std::alloc::{AllocError, Global};

/// The first place, from this one on, of a number without a rank.
fn first_unranked(ranks: &[Option<usize>], needs: &[usize], from: usize) -> Option<usize>
    ensures { AreRankedTo ranks.now needs.now from →
        MatchOption result (AreRankedTo ranks.now needs.now (length needs.now))
        (λ place. (place < length needs.now) × AreRankedTo ranks.now needs.now place ×
        ¬ (HasRank ranks.now (slice_index needs.now place))) }
{
    for place in from..needs.len() {
        if !has_rank(ranks, needs[place]) {
            return Some(place);
        }
    }
    None
}

/// Gives the head of the rule a rank, or lets the rule wait for a number that it needs from the
/// place on.
fn settle(
    rules: &[Rule],
    index: usize,
    place: usize,
    progress: &mut Progress,
) -> Result<(), AllocError>
    requires index { index < length rules.now }
    requires below { AreRulesBelow (length progress.old.ranks.items) rules.now }
    requires sound { IsSoundAt rules.now progress.old }
    requires place { (r : RuleOf) → slice_get rules.now index ≡ Some r →
        AreRankedTo progress.old.ranks.items r.needs.items place }
    ensures { OnOk result (Settles rules.now index progress.old progress.new) }
{
    let rule = &rules[index];
    match first_unranked(&progress.ranks, &rule.needs, place) {
        Some(later) => {
            let number = rule.needs[later];
            let waiting = Waiting {
                rule: index,
                place: later,
            };
            wait(progress, number, waiting)
        }
        None => learn(progress, rule.head),
    }
}

/// Settles each rule.
fn settle_all(rules: &[Rule], progress: &mut Progress) -> Result<(), AllocError>
    requires below { AreRulesBelow (length progress.old.ranks.items) rules.now }
    requires sound { IsSoundAt rules.now progress.old }
    ensures { OnOk result (SettlesTo rules.now (length rules.now) progress.old progress.new) }
{
    for index in 0..rules.len() {
        settle(rules, index, 0, progress)?;
    }
    Ok(())
}

/// Settles the rules that wait for a number that has a rank.
fn release(rules: &[Rule], number: usize, progress: &mut Progress) -> Result<(), AllocError>
    requires below { AreRulesBelow (length progress.old.ranks.items) rules.now }
    requires sound { IsSoundAt rules.now progress.old }
    requires ranked { HasRank progress.old.ranks.items number }
    ensures goes { OnOk result (Goes rules.now progress.old progress.new) }
    ensures none { OnOk result (waiting_at progress.new.waiting.items number ≡ []) }
{
    while let Some(waiting) = take_waiting(progress, number) {
        settle(rules, waiting.rule, waiting.place, progress)?;
    }
    Ok(())
}

/// The ranks of the numbers that follow from the rules: each has a higher rank than those from
/// which it follows.
pub(crate) fn follow(
    alloc: Global,
    rules: &[Rule],
    bound: usize,
) -> Result<Vec<Option<usize>>, AllocError>
    requires { AreRulesBelow bound rules.now }
    ensures size { IfOk result (λ v. length v.items ≡ bound) }
    ensures founded { IfOk result (λ v. IsFounded rules.now v.items) }
    ensures complete { IfOk result (λ v. IsComplete rules.now v.items) }
    ensures low { IfOk result (λ v. HasRanksBelow bound v.items) }
{
    let mut progress = blank(alloc, bound)?;
    settle_all(rules, &mut progress)?;
    let mut next = 0;
    while next < progress.order.len() {
        let number = progress.order[next];
        release(rules, number, &mut progress)?;
        next += 1;
    }
    Ok(progress.ranks)
}
