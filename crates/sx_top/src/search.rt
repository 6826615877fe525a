//! The step that finds the list of the first derivation of a core problem's goal.

ghost use Rattle.std.specs.Prelude.{◌≡◌, Some, IfOk};
ghost use Rattle.sx_core.specs.Problem.{problem as problem_data};
ghost use Rattle.sx_steps.specs.Stop.{RisesWithin, GivesFor, IsNoFault, CountsTries};
ghost use Rattle.sx_top.specs.LowerStops.{derive_stop};
ghost use Rattle.sx_top.specs.Proper.{IsProper, ListsGiven, HasTerms};
ghost use Rattle.sx_top.specs.Search.{Searches, HasCoreWalked};

use crate::goal_stops::stuck_goal;
use std::alloc::Global;
use std::sync::ledger::Ledger;
use sx_core::CoreProblem;
use sx_derive::{DeriveError, Listed, derive_list};
use sx_rules::Hyps;
use sx_steps::{StepError, Stop, about};
use sx_term::{NoMemory, Steps, Text};
use sx_words::{BudgetDefect, Defect, TextDefect};

/// Why the goal of the file has no answer.
fn no_answer(
    alloc: Global,
    file: &Text,
    problem: &CoreProblem,
    error: DeriveError,
) -> Result<Stop, NoMemory>
    requires { HasTerms error }
    ensures { IfOk result (λ stop.
        derive_stop file.now (problem_data problem.now) error ≡ Some stop) }
{
    let defect = match error {
        DeriveError::Memory => return Err(NoMemory::Memory),
        DeriveError::Underivable(blame) => return stuck_goal(alloc, file, &problem.rules, &blame),
        DeriveError::BudgetSpent(budget) => Defect::Budget(BudgetDefect::Tries(budget)),
        DeriveError::DepthSpent(_) => Defect::Budget(BudgetDefect::Depth),
        DeriveError::TooDeep(depth) => Defect::Text(TextDefect::TooDeep(depth)),
        DeriveError::TooBig(size) => Defect::Text(TextDefect::TooBig(size)),
    };
    Ok(about(file.copy(alloc)?, defect))
}

/// The list of the first derivation of the goal that the file states, and its outputs, or why there
/// is none. At most `budget` tries are made.
pub fn find_first<L: Ledger>(
    alloc: Global,
    file: &Text,
    problem: &CoreProblem,
    budget: u64,
    steps: &mut Steps<L>,
) -> Result<Listed, StepError>
    requires { IsProper (problem_data problem.now) }
    ensures step { GivesFor (ListsGiven (problem_data problem.now))
        (Searches file.now budget (problem_data problem.now)) result }
    ensures no_fault { IsNoFault result }
    ensures tries { CountsTries (HasCoreWalked budget (problem_data problem.now)) result steps.old
        steps.new }
    ensures most { RisesWithin budget steps.old steps.new }
{
    let given = Hyps::none(alloc);
    match derive_list(
        alloc,
        &problem.rules,
        &given,
        &problem.goal,
        None,
        budget,
        steps,
    ) {
        Ok(listed) => Ok(listed),
        Err(error) => match no_answer(alloc, file, problem, error) {
            Ok(stop) => Err(StepError::Stopped(stop)),
            Err(_) => Err(StepError::Memory),
        },
    }
}
