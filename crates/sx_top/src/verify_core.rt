//! The steps of `verify --core NAME`.

ghost use Rattle.std.specs.Prelude.{◌≡◌, ◌<◌, ◌-◌, ◌^◌, IfOk, length, map};
ghost use Rattle.sx_outside.specs.Told.{WhereTold};
ghost use Rattle.sx_term.specs.Term.{tree};
ghost use Rattle.sx_core.specs.Problem.{problem as problem_data};
ghost use Rattle.sx_top.specs.Proper.{IsProper};
ghost use Rattle.sx_steps.specs.Unit.{list_file};
ghost use Rattle.sx_steps.specs.Stop.{Gives, OnlyReads, IsNoFault};
ghost use Rattle.sx_top.specs.Terms.{AreTerms};
ghost use Rattle.sx_top.specs.VerifyCore.{ReplaysProblem, VerifiesOutputs};
ghost use Rattle.sx_top.specs.VerifyCore.{VerifiesCoreEntries, VerifiesCoreList};
ghost use Rattle.sx_top.specs.VerifyCore.{VerifiesCoreSubject};
ghost use Rattle.sx_top.specs.VerifyCore.{VerifiesWhole};
ghost use Rattle.sx_steps.specs.Work.{plan_of};

use crate::read_core::read_problem;
use crate::texts::{base_text, interface_text};
use crate::written::compare;
use std::alloc::Global;
use sx_core::CoreProblem;
use sx_outside::Shelf;
use sx_replay::replay;
use sx_rules::{Entry, Hyps};
use sx_steps::{StepError, Work, with_suffix};
use sx_term::{Term, Text};
use sx_verify::{bad_replay, read_entries, verified_work};

/// The outputs of the derivation of the goal that has the list of the file.
fn replay_list(
    alloc: Global,
    file: &Text,
    problem: &CoreProblem,
    list: &[Entry],
) -> Result<Vec<Term>, StepError>
    requires proper { IsProper (problem_data problem.now) }
    requires short { length list.now < 2 ^ 32 - 1 }
    ensures step { Gives (λ outputs. map tree outputs.items)
        (ReplaysProblem file.now (problem_data problem.now) list.now) result }
    ensures terms { IfOk result (λ outputs. AreTerms (map tree outputs.items)) }
    ensures no_fault { IsNoFault result }
{
    let given = Hyps::none(alloc);
    match replay(alloc, &problem.rules, &given, &problem.goal, list) {
        Ok(outputs) => Ok(outputs),
        Err(error) => Err(StepError::Stopped(bad_replay(alloc, file, error)?)),
    }
}

/// The outputs are those of the file.
fn verify_outputs<S: Shelf>(
    alloc: Global,
    name: &Text,
    nodes: u64,
    outputs: &[Term],
    shelf: &mut S,
) -> Result<Work, StepError>
    requires { AreTerms (map tree outputs.now) }
    ensures step { WhereTold (S.content shelf.old)
        (λ files. Gives plan_of (VerifiesOutputs name.now files nodes (map tree outputs.now))
        result) }
    ensures reads { OnlyReads (S.content shelf.old) (S.content shelf.new)
        (S.read_faults shelf.old) (S.read_faults shelf.new)
        (S.write_faults shelf.old) (S.write_faults shelf.new) result }
{
    let text = interface_text(alloc, outputs)?;
    let file = with_suffix(alloc, name, ".int")?;
    match compare(alloc, &file, &text, shelf) {
        Ok(()) => Ok(verified_work(alloc, name, nodes)?),
        Err(e) => Err(e),
    }
}

/// The list is that of a derivation, whose outputs are those of the file.
fn verify_entries<S: Shelf>(
    alloc: Global,
    name: &Text,
    file: &Text,
    problem: &CoreProblem,
    list: &[Entry],
    shelf: &mut S,
) -> Result<Work, StepError>
    requires file { file.now ≡ list_file name.now }
    requires proper { IsProper (problem_data problem.now) }
    requires short { length list.now < 2 ^ 32 - 1 }
    ensures step { WhereTold (S.content shelf.old)
        (λ files. Gives plan_of (VerifiesCoreEntries name.now files
        (problem_data problem.now) list.now)
        result) }
    ensures reads { OnlyReads (S.content shelf.old) (S.content shelf.new)
        (S.read_faults shelf.old) (S.read_faults shelf.new)
        (S.write_faults shelf.old) (S.write_faults shelf.new) result }
{
    match replay_list(alloc, file, problem, list) {
        Ok(outputs) => verify_outputs(alloc, name, list.len() as u64, &outputs, shelf),
        Err(e) => Err(e),
    }
}

/// The list in its file is verified.
fn verify_list<S: Shelf>(
    alloc: Global,
    name: &Text,
    problem: &CoreProblem,
    shelf: &mut S,
) -> Result<Work, StepError>
    requires { IsProper (problem_data problem.now) }
    ensures step { WhereTold (S.content shelf.old)
        (λ files. Gives plan_of (VerifiesCoreList name.now files
        (problem_data problem.now)) result) }
    ensures reads { OnlyReads (S.content shelf.old) (S.content shelf.new)
        (S.read_faults shelf.old) (S.read_faults shelf.new)
        (S.write_faults shelf.old) (S.write_faults shelf.new) result }
{
    let file = with_suffix(alloc, name, ".der")?;
    match read_entries(alloc, &file, &problem.rules, shelf) {
        Ok(list) => verify_entries(alloc, name, &file, problem, &list, shelf),
        Err(e) => Err(e),
    }
}

/// The subject of the goal is that of its file, and then the list is verified.
fn verify_subject<S: Shelf>(
    alloc: Global,
    name: &Text,
    problem: &CoreProblem,
    shelf: &mut S,
) -> Result<Work, StepError>
    requires { IsProper (problem_data problem.now) }
    ensures step { WhereTold (S.content shelf.old)
        (λ files. Gives plan_of (VerifiesCoreSubject name.now files (problem_data problem.now))
        result) }
    ensures reads { OnlyReads (S.content shelf.old) (S.content shelf.new)
        (S.read_faults shelf.old) (S.read_faults shelf.new)
        (S.write_faults shelf.old) (S.write_faults shelf.new) result }
{
    let text = base_text(alloc, problem.rules.forms(), &problem.goal)?;
    let file = with_suffix(alloc, name, ".base")?;
    match compare(alloc, &file, &text, shelf) {
        Ok(()) => verify_list(alloc, name, problem, shelf),
        Err(e) => Err(e),
    }
}

/// The steps of `verify --core NAME`. No try is made.
pub fn plan_verify_core<S: Shelf>(
    alloc: Global,
    name: &Text,
    shelf: &mut S,
) -> Result<Work, StepError>
    ensures step { WhereTold (S.content shelf.old)
        (λ files. Gives plan_of (VerifiesWhole name.now files) result) }
    ensures reads { OnlyReads (S.content shelf.old) (S.content shelf.new)
        (S.read_faults shelf.old) (S.read_faults shelf.new)
        (S.write_faults shelf.old) (S.write_faults shelf.new) result }
{
    let file = with_suffix(alloc, name, ".core")?;
    match read_problem(alloc, &file, shelf) {
        Ok(problem) => verify_subject(alloc, name, &problem, shelf),
        Err(e) => Err(e),
    }
}
