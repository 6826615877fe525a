//! Searches that can be taken up again.

ghost use Rattle.std.specs.Prelude.{◌≡◌, ◌^◌, ◌<◌, List, Err, IfOk, length};
ghost use Rattle.sx_arena.specs.Entered.{ArePairsShallow};
ghost use Rattle.sx_arena.specs.Views.{rules_of, set_modes};
ghost use Rattle.sx_derive.specs.Resumable.{StandsForEvents, HasFailed, CanGoOn, IsNextOf};
ghost use Rattle.sx_derive.specs.Resumable.{IsErrorOf};
ghost use Rattle.sx_derive.specs.Walk.{Event, Answer, events};
ghost use Rattle.sx_derive.specs.declared.search_error.SearchError.TheVariants.{Memory};
ghost use Rattle.sx_derive.specs.declared.state.State.TheVariants.{Open, Failed};
ghost use Rattle.sx_rules.specs.Deep.{AreShallow};
ghost use Rattle.sx_rules.specs.Derivations.{ShallowJudgements};
ghost use Rattle.sx_rules.specs.Views.{goal as goal_of, hypotheses};

use crate::derived::export_answer;
use crate::found::Found;
use crate::given::Given;
use crate::numbered_goal::{LEVELS_BELOW, NumberedGoal};
use crate::problem::{Problem, enter_problem};
use crate::reach::{Reached, reach};
use crate::search_error::SearchError;
use crate::state::State;
use crate::store::Store;
use crate::tasks::{Ending, Task};
use crate::walk::first_task;
use std::alloc::Global;
use std::sync::ledger::Ledger;
use sx_arena::{Fact, Limit, Pair};
use sx_rules::{Goal, Hyps, MOST_LEVELS, RuleSet};
use sx_term::{NoMemory, Steps};

/// A search for the derivations of a goal, which goes on where it stopped. It holds what is still
/// to be tried; the rules and the hypotheses are lent to each call.
#[derive(Drop)]
pub struct Search {
    pub(crate) store: Store,
    pub(crate) facts: Vec<Fact>,
    pub(crate) pairs: Vec<Pair>,
    pub(crate) tasks: Vec<Task>,
    pub(crate) state: State,
}

/// The error of a limit.
fn limit_error(limit: Limit) -> SearchError
    ensures { IsErrorOf limit result }
{
    match limit {
        Limit::TooDeep(depth) => SearchError::TooDeep(depth),
        Limit::TooBig(size) => SearchError::TooBig(size),
    }
}

impl Search {
    /// The search for the goal's derivations, of which nothing is tried yet.
    pub fn begin(
        alloc: Global,
        rules: &RuleSet,
        given: &Hyps,
        goal: Goal,
    ) -> Result<Search, NoMemory>
        requires few { length given.now.holds.items < 2 ^ 32 }
        requires holds { ShallowJudgements (hypotheses given.now).judgements }
        requires apart { ArePairsShallow (hypotheses given.now).pairs }
        requires goal { AreShallow (goal_of goal).terms }
        ensures { IfOk result
            (λ search. StandsForEvents (set_modes rules.now) (rules_of rules.now)
            (hypotheses given.now)
            search
            (events (set_modes rules.now) (rules_of rules.now) (hypotheses given.now) (goal_of goal)
            1)) }
    {
        let problem = enter_problem(alloc, rules, given, &goal, None)?;
        let mark = problem.store.mark();
        let tasks = first_task(
            alloc,
            NumberedGoal {
                form: goal.form,
                terms: problem.terms,
                levels: LEVELS_BELOW,
            },
            problem.store.until,
            mark,
        )?;
        Ok(Search {
            store: problem.store,
            facts: problem.facts,
            pairs: problem.pairs,
            tasks,
            state: State::Open,
        })
    }

    /// The next derivation, with the tries made in this call; or that the budget is spent or that
    /// none is left. Each try is counted.
    ///
    /// # Errors `DepthSpent` where a derivation would have more than 3,000 levels, `TooDeep` and
    /// `TooBig` where a term would be deeper than 1,000 or bigger than 1,000,000, with its depth or
    /// size. After these each later call answers the same. `Memory` where memory is lacking, and
    /// from then on.
    pub fn next<L: Ledger>(
        &mut self,
        rules: &RuleSet,
        given: &Hyps,
        budget: u64,
        steps: &mut Steps<L>,
    ) -> Result<Found, SearchError>
        requires stands { CanGoOn (set_modes rules.now) (rules_of rules.now) (hypotheses given.now)
            self.old }
        ensures next { (es : List (Event Answer)) →
            StandsForEvents (set_modes rules.now) (rules_of rules.now) (hypotheses given.now)
            self.old es →
            IsNextOf (set_modes rules.now) (rules_of rules.now) (hypotheses given.now) budget
            steps.old steps.new es self.new result }
        ensures goes_on { CanGoOn (set_modes rules.now) (rules_of rules.now) (hypotheses given.now)
            self.new }
        ensures failed { HasFailed self.old → HasFailed self.new × (result ≡ Err Memory)
            × (steps.new ≡ steps.old) }
    {
        match self.state {
            State::Failed => Err(SearchError::Memory),
            State::Passed(limit) => Err(limit_error(limit)),
            State::DepthSpent => Err(SearchError::DepthSpent(MOST_LEVELS)),
            State::Open => self.go_on(rules, given, budget, steps),
        }
    }

    /// The next derivation of a search that has come to no limit.
    fn go_on<L: Ledger>(
        &mut self,
        rules: &RuleSet,
        given: &Hyps,
        budget: u64,
        steps: &mut Steps<L>,
    ) -> Result<Found, SearchError>
        requires stands { (es : List (Event Answer))
            × StandsForEvents (set_modes rules.now) (rules_of rules.now) (hypotheses given.now)
            self.old es }
        requires open { self.old.state ≡ Open }
        ensures { (es : List (Event Answer)) →
            StandsForEvents (set_modes rules.now) (rules_of rules.now) (hypotheses given.now)
            self.old es →
            IsNextOf (set_modes rules.now) (rules_of rules.now) (hypotheses given.now) budget
            steps.old steps.new es self.new result }
    {
        let alloc = *self.tasks.allocator();
        let known = Given {
            alloc,
            rules,
            facts: &self.facts,
            pairs: &self.pairs,
        };
        let reached = reach(&known, &mut self.store, &mut self.tasks, budget, steps);
        let Reached { ending, tries } = match reached {
            Ok(reached) => reached,
            Err(_) => return Err(self.fail()),
        };
        match ending {
            Ending::Spent => Ok(Found::Paused),
            Ending::Exhausted => Ok(Found::Ended),
            Ending::DepthSpent => {
                self.state = State::DepthSpent;
                Err(SearchError::DepthSpent(MOST_LEVELS))
            }
            Ending::Passed(limit) => {
                self.state = State::Passed(limit);
                Err(limit_error(limit))
            }
            Ending::Found { head, outputs } => {
                match export_answer(alloc, &self.store, head, &outputs) {
                    Ok(derived) => Ok(Found::Next(derived, tries)),
                    Err(_) => Err(self.fail()),
                }
            }
        }
    }

    /// Memory is lacking, from now on.
    fn fail(&mut self) -> SearchError
        ensures error { result ≡ Memory }
        ensures failed { self.new
            ≡ record {
              store = self.old.store;
              facts = self.old.facts;
              pairs = self.old.pairs;
              tasks = self.old.tasks;
              state = Failed;
            } }
    {
        self.state = State::Failed;
        SearchError::Memory
    }
}
