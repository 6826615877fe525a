//! What is still to be tried, and one try.

ghost use Rattle.std.specs.Prelude.{◌≡◌, ◌+◌, ◌^◌, ◌<◌, ◌↔◌, List, IsTrue, IfOk, length};
ghost use Rattle.sx_rules.specs.Rules.{Judgement};
ghost use Rattle.sx_arena.specs.Pairs.{ArePairs};
ghost use Rattle.sx_derive.specs.Givens.{IsStoreOf, HasFacts};
ghost use Rattle.sx_derive.specs.Store.{store_trees};
ghost use Rattle.sx_derive.specs.Tasks.{TaskFits, IsNextCandidate};
ghost use Rattle.sx_arena.specs.Views.{rules_of, set_modes};

use crate::candidates::{try_given, try_rule};
use crate::chains::Head;
use crate::given::Given;
use crate::step::Step;
use crate::store::{Mark, Store};
use sx_arena::Limit;
use sx_term::NoMemory;

/// The candidates of a goal that are still to be tried: first the hypotheses and then the rules,
/// from a number on; and where the store ended when the goal was come to.
#[derive(Drop)]
pub struct Task {
    pub(crate) next: usize,
    pub(crate) form: u32,
    pub(crate) terms: Vec<usize>,
    pub(crate) levels: usize,
    pub(crate) frames: usize,
    pub(crate) mark: Mark,
}

/// The task of a goal that was come to where the store ended at the mark, no candidate of which is
/// tried.
pub(crate) fn new_task(
    form: u32,
    terms: Vec<usize>,
    levels: usize,
    frames: usize,
    mark: Mark,
) -> Task
    ensures { result ≡ record {
      next = 0;
      form = form;
      terms = terms;
      levels = levels;
      frames = frames;
      mark = mark;
    } }
{
    Task {
        next: 0,
        form,
        terms,
        levels,
        frames,
        mark,
    }
}

/// How a walk ends: with an answer, at a limit, with the tries spent, or at the end of the events.
#[derive(Drop)]
pub enum Ending {
    Found { head: Head, outputs: Vec<usize> },
    Passed(Limit),
    DepthSpent,
    Spent,
    Exhausted,
}

/// Whether there is a candidate with this number.
pub(crate) fn is_candidate(given: &Given, next: usize) -> bool
    ensures { IsTrue result ↔ (next < length given.now.facts.now + length (rules_of
        given.now.rules.now)) }
{
    given.rules.facts();
    if next < given.facts.len() {
        return true;
    }
    match u32::try_from(next - given.facts.len()) {
        Ok(number) => given.rules.rule(number).is_some(),
        Err(_) => false,
    }
}

/// What comes of the next candidate of a task.
pub(crate) fn try_next(given: &Given, store: &mut Store, task: &Task) -> Result<Step, NoMemory>
    requires few { length given.now.facts.now < 2 ^ 32 }
    requires facts { (js : List Judgement) × HasFacts given.now store.old js }
    requires store { IsStoreOf given.now store.old }
    requires pairs { ArePairs (length (store_trees store.old)) given.now.pairs.now }
    requires task { TaskFits (set_modes given.now.rules.now)
        (rules_of given.now.rules.now) store.old
        (length given.now.facts.now + length (rules_of given.now.rules.now)) task.now }
    requires next { task.now.next < length given.now.facts.now + length (rules_of
        given.now.rules.now) }
    ensures { IfOk result (λ step. (js : List Judgement) → HasFacts given.now store.old js →
        IsNextCandidate (set_modes given.now.rules.now) (rules_of given.now.rules.now)
        given.now.pairs.now js
        store.old store.new task.now step) }
{
    given.rules.facts();
    if task.next < given.facts.len() {
        return try_given(
            given,
            store,
            &given.facts[task.next],
            task.next as u32,
            task,
        );
    }
    let number = (task.next - given.facts.len()) as u32;
    try_rule(given, store, number, task)
}
