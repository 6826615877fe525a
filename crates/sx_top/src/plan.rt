//! What the words come to.

ghost use Rattle.std.specs.Prelude.{◌≡◌, map};
ghost use Rattle.sx_outside.specs.Told.{WhereTold};
ghost use Rattle.sx_words.specs.View.{audit_view, command_view};
ghost use Rattle.sx_build.specs.BuildModules.{BuildsModule};
ghost use Rattle.sx_top.specs.Calls.{call};
ghost use Rattle.sx_top.specs.Commands.{IsWithinBudget};
ghost use Rattle.sx_top.specs.Outcome as spec;
ghost use Rattle.sx_steps.specs.Stop.{OnlyReads, Does};
ghost use Rattle.sx_steps.specs.Work.{plan_of};

use crate::build_core::plan_build_core;
use crate::commands::read_command;
use crate::verify_core::plan_verify_core;
use std::alloc::Global;
use std::mem;
use std::sync::ledger::Ledger;
use sx_audit::Auditor;
use sx_auditing::name_auditors;
use sx_build::plan_build_module;
use sx_check::plan_check;
use sx_compile::plan_compile;
use sx_extcheck::Budgets;
use sx_outside::Shelf;
use sx_sampling::plan_sample;
use sx_steps::{StepError, Work};
use sx_term::{Steps, Text};
use sx_verify::plan_verify;
use sx_words::{Audit, Command};

/// So many tries for each walk, and so many nodes for each derivation that is lowered.
fn budgets_for(tries: u64, nodes: u64) -> Budgets
    ensures { result ≡ spec.budgets_of tries nodes }
{
    Budgets { tries, nodes }
}

/// The auditors that the command names.
fn audits_of(command: &Command) -> &[Audit]
    ensures { map audit_view result.now ≡ spec.audits_of (command_view command.now) }
{
    match command {
        Command::Build { audits, .. } => audits,
        Command::Compile { audits, .. } => audits,
        _ => &[],
    }
}

/// The steps of `build NAME` with these auditors.
fn build_named<S: Shelf, L: Ledger>(
    alloc: Global,
    name: &Text,
    budgets: Budgets,
    named: &mut Vec<Box<dyn Auditor>>,
    shelf: &mut S,
    steps: &mut Steps<L>,
) -> Result<Work, StepError>
    ensures step { WhereTold (S.content shelf.old) (λ files. Does plan_of
        (BuildsModule name.now budgets (map (λ b. meaning b) named.old.items) files) result
        steps.old steps.new) }
    ensures reads { OnlyReads (S.content shelf.old) (S.content shelf.new)
        (S.read_faults shelf.old) (S.read_faults shelf.new)
        (S.write_faults shelf.old) (S.write_faults shelf.new) result }
{
    let auditors = mem::replace(named, Vec::new(alloc));
    plan_build_module(alloc, name, budgets, auditors, shelf, steps)
}

/// The steps of a command with the auditors that it names.
fn run_command<S: Shelf, L: Ledger>(
    alloc: Global,
    command: &Command,
    named: &mut Vec<Box<dyn Auditor>>,
    shelf: &mut S,
    steps: &mut Steps<L>,
) -> Result<Work, StepError>
    requires { IsWithinBudget (command_view command.now) }
    ensures step { WhereTold (S.content shelf.old) (λ files. Does plan_of
        (spec.Runs (command_view command.now) (map (λ b. meaning b) named.old.items) files) result
        steps.old steps.new) }
    ensures reads { OnlyReads (S.content shelf.old) (S.content shelf.new)
        (S.read_faults shelf.old) (S.read_faults shelf.new)
        (S.write_faults shelf.old) (S.write_faults shelf.new) result }
{
    match command {
        Command::Build {
            core: true,
            name,
            tries,
            nodes: _,
            audits: _,
        } => plan_build_core(alloc, name, *tries, shelf, steps),
        Command::Build {
            core: false,
            name,
            tries,
            nodes,
            audits: _,
        } => build_named(
            alloc,
            name,
            budgets_for(*tries, *nodes),
            named,
            shelf,
            steps,
        ),
        Command::Compile {
            name,
            tries,
            nodes,
            audits: _,
        } => plan_compile(
            alloc,
            name,
            budgets_for(*tries, *nodes),
            named,
            shelf,
            steps,
        ),
        Command::Check { name, tries, nodes } => {
            plan_check(alloc, name, budgets_for(*tries, *nodes), shelf, steps)
        }
        Command::Verify { core: true, name } => plan_verify_core(alloc, name, shelf),
        Command::Verify { core: false, name } => plan_verify(alloc, name, shelf),
        Command::Sample { n } => plan_sample(alloc, *n, steps),
    }
}

/// The steps of a command with these auditors handed in.
fn run_named<S: Shelf, L: Ledger>(
    alloc: Global,
    command: &Command,
    handed: Vec<Box<dyn Auditor>>,
    shelf: &mut S,
    steps: &mut Steps<L>,
) -> Result<Work, StepError>
    requires { IsWithinBudget (command_view command.now) }
    ensures step { WhereTold (S.content shelf.old) (λ files. Does plan_of
        (spec.RunsFor (map (λ b. meaning b) handed.items) files (command_view command.now)) result
        steps.old steps.new) }
    ensures reads { OnlyReads (S.content shelf.old) (S.content shelf.new)
        (S.read_faults shelf.old) (S.read_faults shelf.new)
        (S.write_faults shelf.old) (S.write_faults shelf.new) result }
{
    match name_auditors(alloc, handed, audits_of(command)) {
        Ok(mut named) => {
            let work = run_command(alloc, command, &mut named, shelf, steps);
            drop(named);
            work
        }
        Err(e) => Err(e),
    }
}

/// What the words come to: what is to be written, or why nothing is, and how many tries were made.
pub fn plan<S: Shelf, L: Ledger>(
    alloc: Global,
    words: &[Text],
    auditors: Vec<Box<dyn Auditor>>,
    shelf: &mut S,
    steps: &mut Steps<L>,
) -> Result<Work, StepError>
    ensures outcome { WhereTold (S.content shelf.old) (λ files. Does plan_of
        (spec.RunOutcome (call words.now (map (λ b. meaning b) auditors.items)) files) result
        steps.old steps.new) }
    ensures reads { OnlyReads (S.content shelf.old) (S.content shelf.new)
        (S.read_faults shelf.old) (S.read_faults shelf.new)
        (S.write_faults shelf.old) (S.write_faults shelf.new) result }
{
    match read_command(alloc, words) {
        Ok(command) => {
            let work = run_named(alloc, &command, auditors, shelf, steps);
            drop(command);
            work
        }
        Err(e) => {
            drop(auditors);
            Err(e)
        }
    }
}
