//! The walk of a goal.

ghost use Rattle.std.specs.Prelude.{◌≡◌, ◌↔◌, ◌^◌, ◌<◌, IsTrue, List, ◌∷◌, [], IfOk, length};
ghost use Rattle.std.specs.Prelude.{MatchOption, true};
ghost use Rattle.sx_rules.specs.Limits.{most_levels};
ghost use Rattle.sx_rules.specs.Rules.{Judgement};
ghost use Rattle.sx_arena.specs.Arena.{AreBelow};
ghost use Rattle.sx_arena.specs.Pairs.{ArePairs};
ghost use Rattle.sx_derive.specs.Givens.{IsStoreOf, HasFacts};
ghost use Rattle.sx_derive.specs.Store.{store_trees};
ghost use Rattle.sx_derive.specs.Tasks.{WantedBelow};
ghost use Rattle.sx_derive.specs.Walked.{CanComeTo, GoesOnTo, IsUnwanted, IsWalked, IsWalkedTo};
ghost use Rattle.sx_arena.specs.Views.{rules_of, set_modes};

use crate::given::Given;
use crate::numbered_goal::NumberedGoal;
use crate::passing::count;
use crate::run::run;
use crate::store::{Mark, Store};
use crate::tasks::{Ending, Task, new_task};
use crate::trace::{Traced, trace};
use std::alloc::Global;
use std::sync::ledger::Ledger;
use sx_arena::same_numbers;
use sx_term::{NoMemory, Steps};

/// How the walk of a goal ends; and where the goal has no answer, the premises without an answer
/// that first candidates lead to, the innermost first.
#[derive(Drop)]
pub(crate) struct Walked {
    pub(crate) ending: Ending,
    pub(crate) notes: Vec<usize>,
}

/// The task of a goal for whose answers those frames wait, no candidate of which is tried.
pub(crate) fn goal_task(goal: NumberedGoal, frames: usize, mark: Mark) -> Task
    ensures { result ≡ record {
      next = 0;
      form = goal.form;
      terms = goal.terms;
      levels = goal.levels;
      frames = frames;
      mark = mark;
    } }
{
    let NumberedGoal {
        form,
        terms,
        levels,
    } = goal;
    new_task(form, terms, levels, frames, mark)
}

/// The task of a goal alone, no candidate of which is tried.
pub(crate) fn first_task(
    alloc: Global,
    goal: NumberedGoal,
    frames: usize,
    mark: Mark,
) -> Result<Vec<Task>, NoMemory>
    ensures { IfOk result (λ r. r.items ≡ record {
      next = 0;
      form = goal.form;
      terms = goal.terms;
      levels = goal.levels;
      frames = frames;
      mark = mark;
    } ∷ []) }
{
    let mut tasks = Vec::new(alloc);
    tasks.push(goal_task(goal, frames, mark))?;
    Ok(tasks)
}

/// Whether the outputs are the wanted ones, where some are wanted.
fn is_wanted(wanted: &Option<Vec<usize>>, outputs: &[usize]) -> bool
    ensures { MatchOption wanted.now (result ≡ true)
        (λ w. IsTrue result ↔ (outputs.now ≡ w.items)) }
{
    match wanted {
        None => true,
        Some(those) => same_numbers(outputs, those),
    }
}

/// Whether the ending is an answer that is not wanted.
fn is_unwanted(wanted: &Option<Vec<usize>>, ending: &Ending) -> bool
    ensures { IsTrue result ↔ IsUnwanted wanted.now ending.now }
{
    match ending {
        Ending::Found { head: _, outputs } => !is_wanted(wanted, outputs),
        _ => false,
    }
}

/// How the walk ends that has come to the ending; where that is an answer that is not wanted, what
/// is left of the tasks goes on.
fn go_on(
    given: &Given,
    store: &mut Store,
    wanted: &Option<Vec<usize>>,
    tasks: &mut Vec<Task>,
    ending: Ending,
    tries: &mut u64,
) -> Result<Ending, NoMemory>
    requires few { length given.now.facts.now < 2 ^ 32 }
    requires came { CanComeTo given.now store.old wanted.now tries.old tasks.old.items ending }
    ensures { IfOk result (λ r. GoesOnTo given.now store.old store.new wanted.now tries.old tries.new
        tasks.old.items ending r) }
{
    let mut ending = ending;
    while is_unwanted(wanted, &ending) {
        ending = run(given, store, tasks, 0, tries)?;
    }
    Ok(ending)
}

/// How the walk of the goal ends, each try taken from those that are left.
fn walk_goal(
    given: &Given,
    store: &mut Store,
    wanted: &Option<Vec<usize>>,
    goal: NumberedGoal,
    tries: &mut u64,
) -> Result<Walked, NoMemory>
    requires few { length given.now.facts.now < 2 ^ 32 }
    requires facts { (js : List Judgement) × HasFacts given.now store.old js }
    requires store { IsStoreOf given.now store.old }
    requires pairs { ArePairs (length (store_trees store.old)) given.now.pairs.now }
    requires wanted { WantedBelow (length (store_trees store.old)) wanted.now }
    requires levels { goal.levels < most_levels }
    requires terms { AreBelow (length (store_trees store.old)) goal.terms.items }
    ensures { IfOk result (λ w. (js : List Judgement) → HasFacts given.now store.old js →
        IsWalkedTo (set_modes given.now.rules.now) (rules_of given.now.rules.now)
        given.now.pairs.now js store.old store.new wanted.now tries.old tries.new goal w) }
{
    let mut tasks = Vec::new(given.alloc);
    match trace(given, store, goal, &mut tasks, tries)? {
        Traced::Failed(notes) => Ok(Walked {
            ending: Ending::Exhausted,
            notes,
        }),
        Traced::Halted(ending) => Ok(Walked {
            ending,
            notes: Vec::new(given.alloc),
        }),
        Traced::Answered { head, outputs } => {
            let first = Ending::Found { head, outputs };
            let ending = go_on(given, store, wanted, &mut tasks, first, tries)?;
            Ok(Walked {
                ending,
                notes: Vec::new(given.alloc),
            })
        }
    }
}

/// How the walk of the goal ends, each try counted.
pub(crate) fn walk<L: Ledger>(
    given: &Given,
    store: &mut Store,
    wanted: &Option<Vec<usize>>,
    goal: NumberedGoal,
    budget: u64,
    steps: &mut Steps<L>,
) -> Result<Walked, NoMemory>
    requires few { length given.now.facts.now < 2 ^ 32 }
    requires facts { (js : List Judgement) × HasFacts given.now store.old js }
    requires store { IsStoreOf given.now store.old }
    requires pairs { ArePairs (length (store_trees store.old)) given.now.pairs.now }
    requires wanted { WantedBelow (length (store_trees store.old)) wanted.now }
    requires levels { goal.levels < most_levels }
    requires terms { AreBelow (length (store_trees store.old)) goal.terms.items }
    ensures { (js : List Judgement) → HasFacts given.now store.old js →
        IsWalked (set_modes given.now.rules.now) (rules_of given.now.rules.now)
        given.now.pairs.now js store.old store.new wanted.now budget goal steps.old steps.new
        result }
{
    let mut left = budget;
    let walked = walk_goal(given, store, wanted, goal, &mut left)?;
    count(steps, budget - left);
    Ok(walked)
}
