//! The first derivation of a goal.

ghost use Rattle.std.specs.Prelude.{◌^◌, ◌<◌, List, Option, IfOk, MatchOption, length, map, reverse};
ghost use Rattle.std.specs.Option.{option_map};
ghost use Rattle.sx_term.specs.Term.{tree};
ghost use Rattle.sx_term.specs.Tree.{Tree};
ghost use Rattle.sx_rules.specs.Deep.{AreShallow};
ghost use Rattle.sx_rules.specs.Derivations.{ShallowJudgements};
ghost use Rattle.sx_rules.specs.First.{IsFirst};
ghost use Rattle.sx_rules.specs.Limits.{most_levels};
ghost use Rattle.sx_rules.specs.Views.{goal as goal_of, hypotheses};
ghost use Rattle.sx_arena.specs.Entered.{ArePairsShallow};
ghost use Rattle.sx_arena.specs.Views.{rules_of, set_modes};
ghost use Rattle.sx_derive.specs.Deriving.{answer_of, IsDerived, IsNone, AreCounted};
ghost use Rattle.sx_derive.specs.Failing.{FailsAlong};
ghost use Rattle.sx_derive.specs.Search.{walk, tries_of};
ghost use Rattle.sx_derive.specs.Store.{IsStore};
ghost use Rattle.sx_derive.specs.Tasks.{IsEnding};
ghost use Rattle.sx_derive.specs.Walk.{events};
ghost use Rattle.sx_derive.specs.Ways.{subject_modes};

use crate::derive_error::DeriveError;
use crate::derived::{Derived, export_answer};
use crate::outcome::outcome;
use crate::problem::{Searched, search};
use std::alloc::Global;
use std::sync::ledger::Ledger;
use sx_rules::{Goal, Hyps, RuleSet};
use sx_term::{Steps, Term};

/// What is answered where a search has ended.
fn answer(
    alloc: Global,
    rules: &RuleSet,
    given: &Hyps,
    goal: &Goal,
    budget: u64,
    searched: Searched,
) -> Result<Derived, DeriveError>
    requires few { length given.now.holds.items < 2 ^ 32 }
    requires holds { ShallowJudgements (hypotheses given.now).judgements }
    requires apart { ArePairsShallow (hypotheses given.now).pairs }
    requires goal { AreShallow (goal_of goal.now).terms }
    requires store { IsStore (set_modes rules.now) (rules_of rules.now) searched.store }
    requires notes { FailsAlong (set_modes rules.now) (rules_of rules.now) (hypotheses given.now)
        most_levels (goal_of goal.now) (reverse searched.notes.items) }
    requires ending { (wanted : Option (List Tree))
        × IsEnding searched.store searched.ending
        (walk wanted budget
        (events (set_modes rules.now) (rules_of rules.now) (hypotheses given.now) (goal_of goal.now)
        1)) }
    ensures { (wanted : Option (List Tree)) →
        IsEnding searched.store searched.ending
        (walk wanted budget
        (events (set_modes rules.now) (rules_of rules.now) (hypotheses given.now) (goal_of goal.now)
        1)) →
        IsDerived (set_modes rules.now) (subject_modes rules.now) (rules_of rules.now)
        (hypotheses given.now) (goal_of goal.now) wanted budget result }
{
    match outcome(alloc, rules, given, goal, budget, searched) {
        Ok(found) => {
            let answer = export_answer(alloc, &found.store, found.head, &found.outputs);
            drop(found);
            Ok(answer?)
        }
        Err(e) => Err(e),
    }
}

/// The first derivation of the goal from the hypotheses, with the wanted outputs where some are
/// wanted. Each try is counted in `steps`, and at most `budget` are made.
///
/// - `Memory`: memory is lacking.
/// - `Underivable`: no derivation with such outputs exists, of whatever depth and size.
/// - `BudgetSpent`: the search needs more than `budget` tries.
/// - `DepthSpent`: the search comes to a goal at depth 3,001.
/// - `TooDeep`, `TooBig`: a term is made that is deeper than 1,000 or has more than 1,000,000
///   nodes.
pub fn derive<L: Ledger>(
    alloc: Global,
    rules: &RuleSet,
    given: &Hyps,
    goal: &Goal,
    wanted: Option<&Vec<Term>>,
    budget: u64,
    steps: &mut Steps<L>,
) -> Result<Derived, DeriveError>
    requires few { length given.now.holds.items < 2 ^ 32 }
    requires holds { ShallowJudgements (hypotheses given.now).judgements }
    requires apart { ArePairsShallow (hypotheses given.now).pairs }
    requires goal { AreShallow (goal_of goal.now).terms }
    requires wanted { MatchOption wanted Unit (λ w. AreShallow (map tree w.now.items)) }
    ensures answer { IsDerived (set_modes rules.now) (subject_modes rules.now) (rules_of rules.now)
        (hypotheses given.now) (goal_of goal.now)
        (option_map (λ w. map tree w.now.items) wanted.entry) budget result }
    ensures first { IfOk result
        (λ d. IsFirst (set_modes rules.now) (rules_of rules.now) (hypotheses given.now)
        (goal_of goal.now) (option_map (λ w. map tree w.now.items) wanted.entry) (answer_of d)) }
    ensures none { IsNone (set_modes rules.now) (rules_of rules.now) (hypotheses given.now)
        (goal_of goal.now) (option_map (λ w. map tree w.now.items) wanted.entry) result }
    ensures steps { AreCounted
        (tries_of (option_map (λ w. map tree w.now.items) wanted.entry) budget
        (events (set_modes rules.now) (rules_of rules.now) (hypotheses given.now) (goal_of goal.now)
        1)) steps.old steps.new result }
{
    rules.facts();
    match search(alloc, rules, given, goal, wanted, budget, steps) {
        Ok(searched) => answer(alloc, rules, given, goal, budget, searched),
        Err(_) => Err(DeriveError::Memory),
    }
}
