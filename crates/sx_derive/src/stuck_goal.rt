//! The stuck goal of a goal without an answer.

ghost use Rattle.std.specs.Prelude.{◌≡◌, ◌^◌, ◌<◌, ◌≤◌, [], IfOk, length, reverse, None};
ghost use Rattle.sx_rules.specs.Deep.{AreShallow};
ghost use Rattle.sx_rules.specs.Derivations.{ShallowJudgements};
ghost use Rattle.sx_rules.specs.Rules.{Hypotheses};
ghost use Rattle.sx_rules.specs.Views.{goal as goal_of, hypotheses};
ghost use Rattle.sx_arena.specs.Arena.{IsArena, AreBelow};
ghost use Rattle.sx_arena.specs.Entered.{ArePairsShallow};
ghost use Rattle.sx_arena.specs.Views.{rules_of, set_modes};
ghost use Rattle.sx_derive.specs.Blames.{blame_of, cause_of};
ghost use Rattle.sx_derive.specs.Candidates.{goal_in};
ghost use Rattle.sx_derive.specs.Descents.{reason_in, ReasonBelow, blame_in};
ghost use Rattle.sx_derive.specs.Failing.{FailsAlong};
ghost use Rattle.sx_derive.specs.Givens.{GoalFails, IsStoreOf, HasHyps, events_by, IsStuckBy};
ghost use Rattle.sx_derive.specs.Quiet.{IsQuiet};
ghost use Rattle.sx_derive.specs.Store.{store_trees};
ghost use Rattle.sx_derive.specs.Stuck.{IsStuck};
ghost use Rattle.sx_derive.specs.Walk.{events};
ghost use Rattle.sx_derive.specs.Ways.{subject_modes};
ghost use Rattle.sx_rules.specs.Limits.{most_levels};

use crate::blame::{Blame, Cause};
use crate::bounds::Bounds;
use crate::candidate_descent::descend;
use crate::descent::{Descent, Reason, Spot};
use crate::given::Given;
use crate::problem::{Problem, enter_problem};
use crate::store::Store;
use std::alloc::Global;
use sx_arena::export_all;
use sx_rules::{Goal, Hyps, MOST_LEVELS, RuleSet};
use sx_term::{NoMemory, Path};

/// The cause with these numbers.
fn export_cause(alloc: Global, store: &Store, reason: Reason) -> Result<Cause, NoMemory>
    requires arena { IsArena store.now.arena }
    requires reason { ReasonBelow (length (store_trees store.now)) reason }
    ensures { IfOk result (λ c. cause_of c ≡ reason_in store.now reason) }
{
    match reason {
        Reason::NoRule => Ok(Cause::NoRule),
        Reason::Equal { rule, premise } => Ok(Cause::Equal { rule, premise }),
        Reason::Mismatch { by, got } => Ok(Cause::Mismatch {
            by,
            got: export_all(alloc, &store.arena, &got)?,
        }),
    }
}

/// The goal with these numbers.
fn export_goal(alloc: Global, store: &Store, form: u32, terms: &[usize]) -> Result<Goal, NoMemory>
    requires arena { IsArena store.now.arena }
    requires terms { AreBelow (length (store_trees store.now)) terms.now }
    ensures { IfOk result (λ g. goal_of g ≡ goal_in store.now form terms.now) }
{
    let inputs = export_all(alloc, &store.arena, terms)?;
    Ok(Goal { form, inputs })
}

/// The stuck goal with these numbers.
fn export_blame(alloc: Global, store: &Store, spot: Spot, reason: Reason) -> Result<Blame, NoMemory>
    requires arena { IsArena store.now.arena }
    requires terms { AreBelow (length (store_trees store.now)) spot.terms.items }
    requires reason { ReasonBelow (length (store_trees store.now)) reason }
    ensures { IfOk result (λ b. blame_of b ≡ blame_in store.now spot reason) }
{
    let goal = export_goal(alloc, store, spot.form, &spot.terms)?;
    let cause = export_cause(alloc, store, reason)?;
    Ok(Blame {
        goal,
        path: Path { steps: spot.path },
        cause,
    })
}

/// The stuck goal that a goal without an answer leads to, level by level in one store. What is
/// noted of one level serves the next.
fn stuck_below(
    given: &Given,
    store: &mut Store,
    first: Spot,
    bounds: Bounds,
    noted: Vec<usize>,
) -> Result<Blame, NoMemory>
    requires few { length given.now.facts.now < 2 ^ 32 }
    requires store { IsStoreOf given.now store.old }
    requires terms { AreBelow (length (store_trees store.old)) first.terms.items }
    requires levels { bounds.levels ≤ most_levels }
    requires quiet { (hyps : Hypotheses) × HasHyps given.now store.old hyps
        × IsQuiet bounds.budget (events_by given.now hyps bounds.levels store.old first)
        × GoalFails given.now hyps bounds.levels store.old first noted.items }
    ensures { IfOk result (λ b. (hyps : Hypotheses) → HasHyps given.now store.old hyps →
        IsStuckBy given.now hyps bounds.levels store.old first (blame_of b)) }
{
    let mut here = first;
    let mut left = bounds.levels;
    let mut notes = noted;
    while left > 0 {
        left -= 1;
        let below = Bounds {
            levels: left,
            budget: bounds.budget,
        };
        match descend(given, store, here, below, &mut notes)? {
            Descent::Stuck { spot, reason } => {
                drop(notes);
                return export_blame(given.alloc, store, spot, reason);
            }
            Descent::Below(next) => here = next,
        }
    }
    unreachable!()
}

/// The stuck goal of a goal without an answer, which is found by first answers and without counting
/// a try. The notes say which premises have no answer, the goal's own the last, as far as that is
/// known.
pub(crate) fn stuck_goal(
    alloc: Global,
    rules: &RuleSet,
    given: &Hyps,
    goal: &Goal,
    budget: u64,
    notes: Vec<usize>,
) -> Result<Blame, NoMemory>
    requires few { length given.now.holds.items < 2 ^ 32 }
    requires holds { ShallowJudgements (hypotheses given.now).judgements }
    requires apart { ArePairsShallow (hypotheses given.now).pairs }
    requires goal { AreShallow (goal_of goal.now).terms }
    requires quiet { IsQuiet budget
        (events (set_modes rules.now) (rules_of rules.now) (hypotheses given.now) (goal_of goal.now)
        1) }
    requires notes { FailsAlong (set_modes rules.now) (rules_of rules.now) (hypotheses given.now)
        most_levels (goal_of goal.now) (reverse notes.items) }
    ensures { IfOk result
        (λ b. IsStuck (set_modes rules.now) (subject_modes rules.now) (rules_of rules.now)
        (hypotheses given.now) most_levels (goal_of goal.now) [] (blame_of b)) }
{
    let problem = enter_problem(alloc, rules, given, goal, None)?;
    let Problem {
        store,
        facts,
        pairs,
        terms,
        wanted,
    } = problem;
    drop(wanted);
    let mut store = store;
    let first = Spot {
        form: goal.form,
        terms,
        path: Vec::new(alloc),
    };
    let hypotheses = Given {
        alloc,
        rules,
        facts: &facts,
        pairs: &pairs,
    };
    let bounds = Bounds {
        levels: MOST_LEVELS as usize,
        budget,
    };
    let blame = stuck_below(&hypotheses, &mut store, first, bounds, notes);
    drop(store);
    drop(pairs);
    drop(facts);
    blame
}
