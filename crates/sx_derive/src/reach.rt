//! The way of a search to what it comes to next.

ghost use Rattle.std.specs.Prelude.{
  ◌≡◌,
  ◌+◌,
  ◌-◌,
  ◌^◌,
  ◌≤◌,
  ◌<◌,
  ◌∷◌,
  ◌++◌,
  [],
  List,
  MatchBool,
  length,
};
ghost use Rattle.sx_rules.specs.Rules.{Judgement};
ghost use Rattle.sx_arena.specs.Pairs.{ArePairs};
ghost use Rattle.sx_arena.specs.Views.{rules_of, set_modes};
ghost use Rattle.sx_derive.specs.Givens.{IsStoreOf, HasFacts};
ghost use Rattle.sx_derive.specs.Resumable.{IsReached, AreTasksSettled};
ghost use Rattle.sx_derive.specs.Store.{store_trees};
ghost use Rattle.sx_derive.specs.Tasks.{events_left, TasksFit};
ghost use Rattle.sx_derive.specs.declared.tasks.Task.{Task as TaskOf};

use crate::given::Given;
use crate::passing::{count, pass_over};
use crate::store::Store;
use crate::tasks::{Ending, Task, is_candidate};
use crate::turns::turn;
use std::sync::ledger::Ledger;
use sx_term::{NoMemory, Steps};

/// What a search comes to, and how many tries lead there.
#[derive(Drop)]
pub(crate) struct Reached {
    pub(crate) ending: Ending,
    pub(crate) tries: u64,
}

/// Whether a task has a candidate left which does not come to nothing at a look, or where no try is
/// left; the tasks after the last such are dropped. Each candidate that is passed over is counted,
/// and takes one of the tries.
fn settle<L: Ledger>(
    given: &Given,
    store: &Store,
    tasks: &mut Vec<Task>,
    left: &mut u64,
    steps: &mut Steps<L>,
) -> bool
    requires store { IsStoreOf given.now store.now }
    requires tasks { TasksFit (set_modes given.now.rules.now) (rules_of given.now.rules.now)
        store.now
        (length given.now.facts.now + length (rules_of given.now.rules.now)) tasks.old.items }
    ensures less { left.new ≤ left.old }
    ensures counted { steps.new ≡ steps.old + (left.old - left.new) }
    ensures settled { (js : List Judgement) → HasFacts given.now store.now js →
        AreTasksSettled (set_modes given.now.rules.now) (rules_of given.now.rules.now)
        given.now.pairs.now js store.now
        (length given.now.facts.now + length (rules_of given.now.rules.now))
        (left.old - left.new) tasks.old.items tasks.new.items }
    ensures last { MatchBool result
        ((front : List TaskOf) × (t : TaskOf) × (tasks.new.items ≡ front ++ t ∷ [])
        × (t.next < length given.now.facts.now + length (rules_of given.now.rules.now)))
        (tasks.new.items ≡ []) }
{
    while tasks.len() > 0 {
        let last = tasks.len() - 1;
        let before = *left;
        let next = pass_over(given, store, &tasks[last], left);
        count(steps, before - *left);
        tasks[last].next = next;
        if is_candidate(given, next) {
            return true;
        }
        tasks.pop();
    }
    false
}

/// The next answer or stop of the tasks, or where the tries or the events end before it. Each try
/// is counted.
pub(crate) fn reach<L: Ledger>(
    given: &Given,
    store: &mut Store,
    tasks: &mut Vec<Task>,
    budget: u64,
    steps: &mut Steps<L>,
) -> Result<Reached, NoMemory>
    requires few { length given.now.facts.now < 2 ^ 32 }
    requires facts { (js : List Judgement) × HasFacts given.now store.old js }
    requires store { IsStoreOf given.now store.old }
    requires pairs { ArePairs (length (store_trees store.old)) given.now.pairs.now }
    requires tasks { TasksFit (set_modes given.now.rules.now) (rules_of given.now.rules.now)
        store.old
        (length given.now.facts.now + length (rules_of given.now.rules.now)) tasks.old.items }
    ensures { (js : List Judgement) → HasFacts given.now store.old js →
        IsReached (set_modes given.now.rules.now) (rules_of given.now.rules.now) given.now.pairs.now
        js (length given.now.facts.now + length (rules_of given.now.rules.now)) store.old store.new
        tasks.new.items budget steps.old steps.new
        (events_left (set_modes given.now.rules.now) (rules_of given.now.rules.now)
        given.now.pairs.now js store.old tasks.old.items) result }
{
    let mut left = budget;
    while settle(given, store, tasks, &mut left, steps) {
        if left == 0 {
            return Ok(Reached {
                ending: Ending::Spent,
                tries: budget,
            });
        }
        match tasks.pop() {
            None => unreachable!(),
            Some(task) => {
                left -= 1;
                steps.tick();
                match turn(given, store, task, tasks) {
                    Err(e) => return Err(e),
                    Ok(None) => {}
                    Ok(Some(ending)) => {
                        return Ok(Reached {
                            ending,
                            tries: budget - left,
                        });
                    }
                }
            }
        }
    }
    Ok(Reached {
        ending: Ending::Exhausted,
        tries: budget - left,
    })
}
