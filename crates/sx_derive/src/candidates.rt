//! The candidates of a goal.

ghost use Rattle.std.specs.Prelude.{◌≡◌, ◌≤◌, ◌<◌, Some, IfOk, length, slice_get};
ghost use Rattle.sx_rules.specs.Deep.{RulesAreShallow};
ghost use Rattle.sx_rules.specs.Rules.{Judgement, Rule};
ghost use Rattle.sx_arena.specs.Arena.{AreBelow};
ghost use Rattle.sx_derive.specs.Candidates.{goal_in, IsFact, IsCandidateTried};
ghost use Rattle.sx_derive.specs.Givens.{IsStoreOf};
ghost use Rattle.sx_derive.specs.Handing.{frames_in};
ghost use Rattle.sx_derive.specs.Machine.{rule_result, given_result};
ghost use Rattle.sx_arena.specs.Pairs.{ArePairs};
ghost use Rattle.sx_derive.specs.Store.{store_trees};
ghost use Rattle.sx_arena.specs.Views.{rules_of, set_modes};

use crate::chains::{Head, Waiting};
use crate::given::Given;
use crate::handing::hand_on;
use crate::premise_loop::premises;
use crate::step::Step;
use crate::store::Store;
use crate::tasks::Task;
use sx_arena::{Fact, Side, copied, fit_places, rule_at, same_numbers};
use sx_term::NoMemory;

/// What comes of a rule against a goal.
pub(crate) fn try_rule(
    given: &Given,
    store: &mut Store,
    number: u32,
    task: &Task,
) -> Result<Step, NoMemory>
    requires shallow { RulesAreShallow (rules_of given.now.rules.now) }
    requires number { number < length (rules_of given.now.rules.now) }
    requires store { IsStoreOf given.now store.old }
    requires pairs { ArePairs (length (store_trees store.old)) given.now.pairs.now }
    requires frames { task.now.frames ≤ length store.old.frames.items }
    requires until { store.old.until ≤ task.now.frames }
    requires terms { AreBelow (length (store_trees store.old)) task.now.terms.items }
    ensures { IfOk result (λ step. (rule : Rule) →
        slice_get (rules_of given.now.rules.now) number ≡ Some rule →
        IsCandidateTried (set_modes given.now.rules.now) (rules_of given.now.rules.now)
        given.now.pairs.now
        store.old store.new
        (λ hyps. rule_result (set_modes given.now.rules.now) hyps number rule task.now.levels
        (goal_in store.old task.now.form task.now.terms.items)
        (frames_in (set_modes given.now.rules.now) (rules_of given.now.rules.now) store.old
        task.now.frames)) step) }
{
    let rule = rule_at(given.rules, number);
    if rule.conclusion.form != task.form {
        return Ok(Step::Nothing);
    }
    let side = Side::new(given.rules, &rule.conclusion, false);
    let fit = fit_places(&store.arena, &mut store.binds, 0, &side, &task.terms)?;
    match fit {
        None => Ok(Step::Nothing),
        Some(env) => {
            let from = Waiting {
                rule: number,
                premise: 0,
                env,
                kids: 0,
                levels: task.levels,
                before: task.frames,
            };
            match premises(given, rule, from, store)? {
                Step::Done { head, outputs } => hand_on(given, store, head, outputs, task.frames),
                other => Ok(other),
            }
        }
    }
}

/// What comes of a hypothesis against a goal.
pub(crate) fn try_given(
    given: &Given,
    store: &mut Store,
    fact: &Fact,
    number: u32,
    task: &Task,
) -> Result<Step, NoMemory>
    requires shallow { RulesAreShallow (rules_of given.now.rules.now) }
    requires store { IsStoreOf given.now store.old }
    requires pairs { ArePairs (length (store_trees store.old)) given.now.pairs.now }
    requires frames { task.now.frames ≤ length store.old.frames.items }
    requires until { store.old.until ≤ task.now.frames }
    requires terms { AreBelow (length (store_trees store.old)) task.now.terms.items }
    requires fact { (j : Judgement)
        × IsFact (set_modes given.now.rules.now) (store_trees store.old) j fact.now }
    ensures { IfOk result (λ step. (j : Judgement) →
        IsFact (set_modes given.now.rules.now) (store_trees store.old) j fact.now →
        IsCandidateTried (set_modes given.now.rules.now) (rules_of given.now.rules.now)
        given.now.pairs.now
        store.old store.new
        (λ hyps. given_result (set_modes given.now.rules.now) hyps number j (goal_in store.old
        task.now.form task.now.terms.items)
        (frames_in (set_modes given.now.rules.now) (rules_of given.now.rules.now) store.old
        task.now.frames)) step) }
{
    if fact.form != task.form {
        return Ok(Step::Nothing);
    }
    if !same_numbers(&fact.inputs, &task.terms) {
        return Ok(Step::Nothing);
    }
    let outputs = copied(given.alloc, &fact.outputs)?;
    hand_on(given, store, Head::Given(number), outputs, task.frames)
}
