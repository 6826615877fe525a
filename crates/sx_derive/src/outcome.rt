//! What a search has found, or why it has found nothing.

ghost use Rattle.std.specs.Prelude.{◌^◌, ◌<◌, List, Option, length, reverse};
ghost use Rattle.sx_term.specs.Tree.{Tree};
ghost use Rattle.sx_rules.specs.Deep.{AreShallow};
ghost use Rattle.sx_rules.specs.Derivations.{ShallowJudgements};
ghost use Rattle.sx_rules.specs.Limits.{most_levels};
ghost use Rattle.sx_rules.specs.Views.{goal as goal_of, hypotheses};
ghost use Rattle.sx_arena.specs.Entered.{ArePairsShallow};
ghost use Rattle.sx_arena.specs.Views.{rules_of, set_modes};
ghost use Rattle.sx_derive.specs.Deriving.{IsToldBy};
ghost use Rattle.sx_derive.specs.Listing.{SaysFound};
ghost use Rattle.sx_derive.specs.Failing.{FailsAlong};
ghost use Rattle.sx_derive.specs.Search.{walk};
ghost use Rattle.sx_derive.specs.Store.{IsStore};
ghost use Rattle.sx_derive.specs.Tasks.{IsEnding};
ghost use Rattle.sx_derive.specs.Walk.{events};
ghost use Rattle.sx_derive.specs.Ways.{subject_modes};

use crate::chains::Head;
use crate::derive_error::DeriveError;
use crate::problem::Searched;
use crate::store::Store;
use crate::stuck_goal::stuck_goal;
use crate::tasks::Ending;
use std::alloc::Global;
use sx_arena::Limit;
use sx_rules::{Goal, Hyps, MOST_LEVELS, RuleSet};

/// What was found, by its numbers in the store.
#[derive(Drop)]
pub struct StoredAnswer {
    pub(crate) store: Store,
    pub(crate) head: Head,
    pub(crate) outputs: Vec<usize>,
}

/// What a search has found, or why it has found nothing. The store is dropped before the stuck goal
/// is sought.
pub(crate) fn outcome(
    alloc: Global,
    rules: &RuleSet,
    given: &Hyps,
    goal: &Goal,
    budget: u64,
    searched: Searched,
) -> Result<StoredAnswer, DeriveError>
    requires few { length given.now.holds.items < 2 ^ 32 }
    requires holds { ShallowJudgements (hypotheses given.now).judgements }
    requires apart { ArePairsShallow (hypotheses given.now).pairs }
    requires goal { AreShallow (goal_of goal.now).terms }
    requires store { IsStore (set_modes rules.now) (rules_of rules.now) searched.store }
    requires notes { FailsAlong (set_modes rules.now) (rules_of rules.now) (hypotheses given.now)
        most_levels (goal_of goal.now) (reverse searched.notes.items) }
    requires ending { (wanted : Option (List Tree))
        × IsEnding searched.store searched.ending
        (walk wanted budget
        (events (set_modes rules.now) (rules_of rules.now) (hypotheses given.now) (goal_of goal.now)
        1)) }
    ensures { (wanted : Option (List Tree)) →
        IsEnding searched.store searched.ending
        (walk wanted budget
        (events (set_modes rules.now) (rules_of rules.now) (hypotheses given.now) (goal_of goal.now)
        1)) →
        IsToldBy (SaysFound (set_modes rules.now) (rules_of rules.now)) (set_modes rules.now)
        (subject_modes rules.now) (rules_of rules.now) (hypotheses given.now) (goal_of goal.now)
        budget (walk wanted budget
        (events (set_modes rules.now) (rules_of rules.now) (hypotheses given.now) (goal_of goal.now)
        1)) result }
{
    let Searched {
        store,
        ending,
        notes,
    } = searched;
    match ending {
        Ending::Found { head, outputs } => Ok(StoredAnswer {
            store,
            head,
            outputs,
        }),
        Ending::Passed(Limit::TooDeep(depth)) => {
            drop(store);
            Err(DeriveError::TooDeep(depth))
        }
        Ending::Passed(Limit::TooBig(size)) => {
            drop(store);
            Err(DeriveError::TooBig(size))
        }
        Ending::DepthSpent => {
            drop(store);
            Err(DeriveError::DepthSpent(MOST_LEVELS))
        }
        Ending::Spent => {
            drop(store);
            Err(DeriveError::BudgetSpent(budget))
        }
        Ending::Exhausted => {
            drop(store);
            let blame = stuck_goal(alloc, rules, given, goal, budget, notes)?;
            Err(DeriveError::Underivable(blame))
        }
    }
}
