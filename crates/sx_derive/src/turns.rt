//! The turns of a walk.

ghost use Rattle.std.specs.Prelude.{
  ◌+◌,
  ◌-◌,
  ◌^◌,
  ◌≤◌,
  ◌<◌,
  ◌++◌,
  IfOk,
  drop,
  length,
  List,
};
ghost use Rattle.sx_rules.specs.Rules.{Judgement};
ghost use Rattle.sx_arena.specs.Pairs.{ArePairs};
ghost use Rattle.sx_derive.specs.Givens.{IsStoreOf, HasFacts};
ghost use Rattle.sx_derive.specs.Store.{store_trees};
ghost use Rattle.sx_derive.specs.Tasks.{TaskFits, TasksFit, IsNextCandidate};
ghost use Rattle.sx_derive.specs.Turns.{
  AreKeptBelow,
  IsPoppedAbove,
  IsTaskPopped,
  IsTaskTurn,
  PutsBehind,
};
ghost use Rattle.sx_derive.specs.declared.tasks.Task.{Task as TaskOf};
ghost use Rattle.sx_arena.specs.Views.{rules_of, set_modes};

use crate::given::Given;
use crate::passing::pass_over;
use crate::step::Step;
use crate::store::Store;
use crate::tasks::{Ending, Task, is_candidate, new_task, try_next};
use sx_term::NoMemory;

/// Takes off the last task above the base, which counts the tasks below it.
fn pop_above(tasks: &mut Vec<Task>, base: usize) -> Option<Task>
    requires base { base ≤ length tasks.old.items }
    ensures below { AreKeptBelow base tasks.old.items tasks.new.items }
    ensures popped { IsPoppedAbove base tasks.old.items tasks.new.items result }
{
    if tasks.len() == base {
        return None;
    }
    tasks.pop()
}

/// The last task above the base that has a candidate left which does not come to nothing at a look,
/// or where no try is left. Each candidate that is passed over takes one of the tries.
pub(crate) fn next_task(
    given: &Given,
    store: &Store,
    tasks: &mut Vec<Task>,
    base: usize,
    left: &mut u64,
) -> Option<Task>
    requires store { IsStoreOf given.now store.now }
    requires base { base ≤ length tasks.old.items }
    requires tasks { TasksFit (set_modes given.now.rules.now) (rules_of given.now.rules.now)
        store.now (length given.now.facts.now + length (rules_of given.now.rules.now))
        (drop base tasks.old.items) }
    ensures less { left.new ≤ left.old }
    ensures below { AreKeptBelow base tasks.old.items tasks.new.items }
    ensures popped { (js : List Judgement) → HasFacts given.now store.now js →
        IsTaskPopped (set_modes given.now.rules.now) (rules_of given.now.rules.now)
        given.now.pairs.now js store.now
        (length given.now.facts.now + length (rules_of given.now.rules.now))
        (left.old - left.new) (drop base tasks.old.items) (drop base tasks.new.items) result }
{
    while let Some(popped) = pop_above(tasks, base) {
        let mut task = popped;
        task.next = pass_over(given, store, &task, left);
        if is_candidate(given, task.next) {
            return Some(task);
        }
    }
    None
}

/// What comes of the next candidate of a task. Where it is nothing, what was made for it is cut
/// off.
fn try_task(given: &Given, store: &mut Store, task: &Task) -> Result<Step, NoMemory>
    requires few { length given.now.facts.now < 2 ^ 32 }
    requires facts { (js : List Judgement) × HasFacts given.now store.old js }
    requires store { IsStoreOf given.now store.old }
    requires pairs { ArePairs (length (store_trees store.old)) given.now.pairs.now }
    requires task { TaskFits (set_modes given.now.rules.now)
        (rules_of given.now.rules.now) store.old
        (length given.now.facts.now + length (rules_of given.now.rules.now)) task.now }
    requires next { task.now.next < length given.now.facts.now + length (rules_of
        given.now.rules.now) }
    ensures { IfOk result (λ step. (js : List Judgement) → HasFacts given.now store.old js →
        IsNextCandidate (set_modes given.now.rules.now) (rules_of given.now.rules.now)
        given.now.pairs.now js
        store.old store.new task.now step) }
{
    let mark = store.mark();
    match try_next(given, store, task)? {
        Step::Nothing => {
            store.cut(mark);
            Ok(Step::Nothing)
        }
        other => Ok(other),
    }
}

/// A try of the task, and what ends the walk where something ends it. The tasks that are left of it
/// come behind the others, whatever those are.
pub(crate) fn turn(
    given: &Given,
    store: &mut Store,
    task: Task,
    tasks: &mut Vec<Task>,
) -> Result<Option<Ending>, NoMemory>
    requires few { length given.now.facts.now < 2 ^ 32 }
    requires facts { (js : List Judgement) × HasFacts given.now store.old js }
    requires store { IsStoreOf given.now store.old }
    requires pairs { ArePairs (length (store_trees store.old)) given.now.pairs.now }
    requires task { TaskFits (set_modes given.now.rules.now)
        (rules_of given.now.rules.now) store.old
        (length given.now.facts.now + length (rules_of given.now.rules.now)) task }
    requires next { task.next < length given.now.facts.now + length (rules_of given.now.rules.now) }
    ensures { IfOk result (λ o. PutsBehind tasks.old.items tasks.new.items (λ more.
        (js : List Judgement) → HasFacts given.now store.old js → (before : List TaskOf) →
        TasksFit (set_modes given.now.rules.now) (rules_of given.now.rules.now) store.old
        (length given.now.facts.now + length (rules_of given.now.rules.now)) before →
        IsTaskTurn (set_modes given.now.rules.now) (rules_of given.now.rules.now)
        given.now.pairs.now js
        (length given.now.facts.now + length (rules_of given.now.rules.now)) store.old store.new
        task before (before ++ more) o)) }
{
    let step = try_task(given, store, &task)?;
    tasks.push(Task {
        next: task.next + 1,
        form: task.form,
        terms: task.terms,
        levels: task.levels,
        frames: task.frames,
        mark: task.mark,
    })?;
    match step {
        Step::Nothing => Ok(None),
        Step::Passed(limit) => Ok(Some(Ending::Passed(limit))),
        Step::DepthSpent => Ok(Some(Ending::DepthSpent)),
        Step::Goes {
            form,
            terms,
            levels,
            frames,
        } => {
            let mark = store.mark();
            tasks.push(new_task(form, terms, levels, frames, mark))?;
            Ok(None)
        }
        Step::Done { head, outputs } => Ok(Some(Ending::Found { head, outputs })),
    }
}
