//! Walks whose tasks are kept.

ghost use Rattle.std.specs.Prelude.{◌^◌, ◌<◌, ◌≤◌, List, IfOk, drop, length};
ghost use Rattle.sx_rules.specs.Rules.{Judgement};
ghost use Rattle.sx_derive.specs.Runs.{IsRunBy, StandFrom, StandsSomewhere, TakesTry, left_by};
ghost use Rattle.sx_derive.specs.Turns.{AreKeptBelow};
ghost use Rattle.sx_derive.specs.declared.store.Store.{Store as StoreOf};

use crate::given::Given;
use crate::store::Store;
use crate::tasks::{Ending, Task};
use crate::turns::{next_task, turn};
use sx_term::NoMemory;

/// What the tasks above the base come to next, an answer or how the walk ends without one. Each try
/// is taken from those that are left. The tasks that are left go on after the answer; of what is
/// made on the way that stays which they and the answer need.
pub(crate) fn run(
    given: &Given,
    store: &mut Store,
    tasks: &mut Vec<Task>,
    base: usize,
    tries: &mut u64,
) -> Result<Ending, NoMemory>
    requires few { length given.now.facts.now < 2 ^ 32 }
    requires base { base ≤ length tasks.old.items }
    requires stands { StandsSomewhere given.now (drop base tasks.old.items) store.old }
    ensures below { IfOk result (λ _. AreKeptBelow base tasks.old.items tasks.new.items) }
    ensures fewer { IfOk result (λ ending. TakesTry tries.old tries.new ending) }
    ensures run { IfOk result (λ ending. (first : StoreOf) (js : List Judgement) →
        StandFrom given.now first js (drop base tasks.old.items) store.old →
        IsRunBy given.now js first store.new tries.old tries.new
        (left_by given.now js store.old (drop base tasks.old.items)) (drop base tasks.new.items)
        ending) }
{
    while let Some(task) = next_task(given, store, tasks, base, tries) {
        if *tries == 0 {
            return Ok(Ending::Spent);
        }
        *tries -= 1;
        store.cut(task.mark);
        match turn(given, store, task, tasks) {
            Err(e) => return Err(e),
            Ok(None) => {}
            Ok(Some(ending)) => return Ok(ending),
        }
    }
    Ok(Ending::Exhausted)
}
