//! A problem in a store, and its search.

ghost use Rattle.std.specs.Prelude.{◌^◌, ◌<◌, IfOk, MatchOption, length, map};
ghost use Rattle.std.specs.Option.{option_map};
ghost use Rattle.sx_term.specs.Term.{tree};
ghost use Rattle.sx_rules.specs.Deep.{AreShallow};
ghost use Rattle.sx_rules.specs.Derivations.{ShallowJudgements};
ghost use Rattle.sx_rules.specs.Views.{goal as goal_of, hypotheses};
ghost use Rattle.sx_arena.specs.Entered.{ArePairsShallow};
ghost use Rattle.sx_derive.specs.Problems.{IsProblem, IsSearched};
ghost use Rattle.sx_arena.specs.Views.{rules_of, set_modes};

use crate::entered::{Entered, enter_parts};
use crate::given::Given;
use crate::numbered_goal::{LEVELS_BELOW, NumberedGoal};
use crate::store::Store;
use crate::tasks::Ending;
use crate::walk::{Walked, walk};
use std::alloc::Global;
use std::sync::ledger::Ledger;
use sx_arena::{Fact, Pair};
use sx_rules::{Goal, Hyps, RuleSet};
use sx_term::{NoMemory, Steps, Term};

/// The hypotheses, the goal's terms and the wanted outputs, by their numbers in a store.
#[derive(Drop)]
pub(crate) struct Problem {
    pub(crate) store: Store,
    pub(crate) facts: Vec<Fact>,
    pub(crate) pairs: Vec<Pair>,
    pub(crate) terms: Vec<usize>,
    pub(crate) wanted: Option<Vec<usize>>,
}

/// How a search ended, and what it made; and where the goal has no answer, the premises without an
/// answer that first candidates lead to, the innermost first.
#[derive(Drop)]
pub(crate) struct Searched {
    pub(crate) store: Store,
    pub(crate) ending: Ending,
    pub(crate) notes: Vec<usize>,
}

/// The problem in a new store.
pub(crate) fn enter_problem(
    alloc: Global,
    rules: &RuleSet,
    given: &Hyps,
    goal: &Goal,
    wanted: Option<&Vec<Term>>,
) -> Result<Problem, NoMemory>
    requires holds { ShallowJudgements (hypotheses given.now).judgements }
    requires apart { ArePairsShallow (hypotheses given.now).pairs }
    requires goal { AreShallow (goal_of goal.now).terms }
    requires wanted { MatchOption wanted Unit (λ w. AreShallow (map tree w.now.items)) }
    ensures { IfOk result
        (λ p. IsProblem (set_modes rules.now) (rules_of rules.now) (hypotheses given.now)
        (goal_of goal.now).terms (option_map (λ w. map tree w.now.items) wanted.entry) p) }
{
    let mut store = Store::new(alloc);
    match enter_parts(alloc, rules, given, goal, wanted, &mut store) {
        Ok(entered) => {
            let Entered {
                facts,
                pairs,
                terms,
                wanted,
            } = entered;
            Ok(Problem {
                store,
                facts,
                pairs,
                terms,
                wanted,
            })
        }
        Err(e) => {
            drop(store);
            Err(e)
        }
    }
}

/// How the walk of the goal ends.
pub(crate) fn search<L: Ledger>(
    alloc: Global,
    rules: &RuleSet,
    given: &Hyps,
    goal: &Goal,
    wanted: Option<&Vec<Term>>,
    budget: u64,
    steps: &mut Steps<L>,
) -> Result<Searched, NoMemory>
    requires few { length given.now.holds.items < 2 ^ 32 }
    requires holds { ShallowJudgements (hypotheses given.now).judgements }
    requires apart { ArePairsShallow (hypotheses given.now).pairs }
    requires goal { AreShallow (goal_of goal.now).terms }
    requires wanted { MatchOption wanted Unit (λ w. AreShallow (map tree w.now.items)) }
    ensures { IsSearched (set_modes rules.now) (rules_of rules.now) (hypotheses given.now)
        (goal_of goal.now) (option_map (λ w. map tree w.now.items) wanted.entry) budget steps.old
        steps.new result }
{
    let problem = match enter_problem(alloc, rules, given, goal, wanted) {
        Ok(problem) => problem,
        Err(e) => return Err(e),
    };
    let Problem {
        store,
        facts,
        pairs,
        terms,
        wanted,
    } = problem;
    let mut store = store;
    let known = Given {
        alloc,
        rules,
        facts: &facts,
        pairs: &pairs,
    };
    let goal = NumberedGoal {
        form: goal.form,
        terms,
        levels: LEVELS_BELOW,
    };
    match walk(&known, &mut store, &wanted, goal, budget, steps) {
        Ok(Walked { ending, notes }) => {
            drop(wanted);
            drop(pairs);
            drop(facts);
            Ok(Searched {
                store,
                ending,
                notes,
            })
        }
        Err(e) => {
            drop(wanted);
            drop(pairs);
            drop(facts);
            drop(store);
            Err(e)
        }
    }
}
