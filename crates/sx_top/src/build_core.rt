//! The steps of `build --core NAME`.

ghost use Rattle.std.specs.Prelude.{◌≡◌, IfOk, map};
ghost use Rattle.sx_outside.specs.Told.{WhereTold};
ghost use Rattle.sx_term.specs.Term.{tree};
ghost use Rattle.sx_rules.specs.First.{Answer};
ghost use Rattle.sx_core.specs.Problem.{problem as problem_data};
ghost use Rattle.sx_derive.specs.Listing.{Lists};
ghost use Rattle.sx_top.specs.BuildCore.{core_plan, BuildsGoal, BuildsFrom, BuildsWhole};
ghost use Rattle.sx_steps.specs.Stop.{OnlyReads, IsNoFault, Does};
ghost use Rattle.sx_top.specs.Proper.{IsProper, ListsGiven};
ghost use Rattle.sx_top.specs.Terms.{AreTerms};
ghost use Rattle.sx_steps.specs.Work.{plan_of};

use crate::read_core::read_problem;
use crate::search::find_first;
use crate::texts::{base_text, interface_text, list_text};
use std::alloc::Global;
use std::sync::ledger::Ledger;
use sx_core::CoreProblem;
use sx_derive::Listed;
use sx_outside::Shelf;
use sx_steps::{StepError, Work, built_work, with_suffix};
use sx_term::{NoMemory, Steps, Text};

/// The three files of the derivation, and the line.
fn make_work(
    alloc: Global,
    name: &Text,
    problem: &CoreProblem,
    listed: &Listed,
) -> Result<Work, NoMemory>
    requires goal { AreTerms (map tree problem.now.goal.inputs.items) }
    requires given { (answer : Answer) × ListsGiven (problem_data problem.now) listed.now answer }
    ensures { IfOk result (λ work. (answer : Answer) → Lists listed.now answer →
        plan_of work ≡ core_plan name.now (problem_data problem.now) answer) }
{
    let list = &listed.entries;
    let base = base_text(alloc, problem.rules.forms(), &problem.goal)?;
    let entries = list_text(alloc, &problem.rules, list)?;
    let interface = interface_text(alloc, &listed.outputs)?;
    let work = built_work(alloc, name, base, entries, interface, list.len() as u64)?;
    Ok(work)
}

/// The steps from the problem that the file states.
fn plan_goal<L: Ledger>(
    alloc: Global,
    name: &Text,
    file: &Text,
    problem: &CoreProblem,
    budget: u64,
    steps: &mut Steps<L>,
) -> Result<Work, StepError>
    requires { IsProper (problem_data problem.now) }
    ensures step { Does plan_of (BuildsGoal name.now file.now budget (problem_data problem.now))
        result steps.old steps.new }
    ensures no_fault { IsNoFault result }
{
    match find_first(alloc, file, problem, budget, steps) {
        Ok(listed) => match make_work(alloc, name, problem, &listed) {
            Ok(work) => Ok(work),
            Err(_) => Err(StepError::Memory),
        },
        Err(e) => Err(e),
    }
}

/// The steps of the command, with the name of its file.
fn plan_file<S: Shelf, L: Ledger>(
    alloc: Global,
    name: &Text,
    file: &Text,
    budget: u64,
    shelf: &mut S,
    steps: &mut Steps<L>,
) -> Result<Work, StepError>
    ensures step { WhereTold (S.content shelf.old)
        (λ files. Does plan_of (BuildsFrom name.now file.now budget files) result steps.old
        steps.new) }
    ensures reads { OnlyReads (S.content shelf.old) (S.content shelf.new)
        (S.read_faults shelf.old) (S.read_faults shelf.new)
        (S.write_faults shelf.old) (S.write_faults shelf.new) result }
{
    match read_problem(alloc, file, shelf) {
        Ok(problem) => plan_goal(alloc, name, file, &problem, budget, steps),
        Err(e) => Err(e),
    }
}

/// The steps of `build --core NAME`, with so many tries to spend.
pub fn plan_build_core<S: Shelf, L: Ledger>(
    alloc: Global,
    name: &Text,
    budget: u64,
    shelf: &mut S,
    steps: &mut Steps<L>,
) -> Result<Work, StepError>
    ensures step { WhereTold (S.content shelf.old)
        (λ files. Does plan_of (BuildsWhole name.now budget files) result steps.old steps.new) }
    ensures reads { OnlyReads (S.content shelf.old) (S.content shelf.new)
        (S.read_faults shelf.old) (S.read_faults shelf.new)
        (S.write_faults shelf.old) (S.write_faults shelf.new) result }
{
    match with_suffix(alloc, name, ".core") {
        Ok(file) => plan_file(alloc, name, &file, budget, shelf, steps),
        Err(_) => Err(StepError::Memory),
    }
}
