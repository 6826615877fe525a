//! First answers.

ghost use Rattle.std.specs.Prelude.{◌^◌, ◌<◌, List, IfOk, length};
ghost use Rattle.sx_rules.specs.Limits.{most_levels};
ghost use Rattle.sx_rules.specs.Rules.{Judgement};
ghost use Rattle.sx_arena.specs.Arena.{AreBelow};
ghost use Rattle.sx_arena.specs.Pairs.{ArePairs};
ghost use Rattle.sx_derive.specs.Givens.{IsStoreOf, HasFacts};
ghost use Rattle.sx_derive.specs.Noted.{IsFirstNoted};
ghost use Rattle.sx_derive.specs.Quiet.{IsQuiet};
ghost use Rattle.sx_derive.specs.Store.{store_trees};
ghost use Rattle.sx_derive.specs.Walked.{events_in};
ghost use Rattle.sx_arena.specs.Views.{rules_of, set_modes};

use crate::given::Given;
use crate::numbered_goal::NumberedGoal;
use crate::store::Store;
use crate::trace::{Traced, trace};
use sx_term::NoMemory;

/// What a goal has as its first answer, or, where it has none, the premises without an answer that
/// first candidates lead to, the innermost first.
#[derive(Drop)]
pub enum First {
    Answer(Vec<usize>),
    Nothing(Vec<usize>),
}

/// The first answer of a goal, or the premises without an answer that it leads to. No try is
/// counted. Of what is made on the way only terms stay where there is an answer, and else nothing.
pub(crate) fn first_noted(
    given: &Given,
    store: &mut Store,
    goal: NumberedGoal,
    budget: u64,
) -> Result<First, NoMemory>
    requires few { length given.now.facts.now < 2 ^ 32 }
    requires facts { (js : List Judgement) × HasFacts given.now store.old js }
    requires store { IsStoreOf given.now store.old }
    requires pairs { ArePairs (length (store_trees store.old)) given.now.pairs.now }
    requires levels { goal.levels < most_levels }
    requires terms { AreBelow (length (store_trees store.old)) goal.terms.items }
    requires quiet { (js : List Judgement) → HasFacts given.now store.old js → IsQuiet budget
        (events_in (set_modes given.now.rules.now) (rules_of given.now.rules.now)
        given.now.pairs.now
        js store.old goal.levels goal.form goal.terms.items) }
    ensures { IfOk result (λ r. (js : List Judgement) → HasFacts given.now store.old js →
        IsFirstNoted (set_modes given.now.rules.now) (rules_of given.now.rules.now)
        given.now.pairs.now
        js store.old store.new goal r) }
{
    let mark = store.mark();
    let mut tasks = Vec::new(given.alloc);
    let mut tries = budget;
    let traced = trace(given, store, goal, &mut tasks, &mut tries)?;
    drop(tasks);
    match traced {
        Traced::Answered { head: _, outputs } => {
            store.cut_chains(mark);
            Ok(First::Answer(outputs))
        }
        Traced::Failed(notes) => {
            store.cut(mark);
            Ok(First::Nothing(notes))
        }
        Traced::Halted(_) => unreachable!(),
    }
}
