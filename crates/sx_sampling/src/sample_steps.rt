//! The steps of `sample N`.

ghost use Rattle.std.specs.Prelude.{◌≡◌, ◌≤◌, IfOk};
ghost use Rattle.sx_outside.specs.Views.{clean_files_of};
ghost use Rattle.sx_steps.specs.Stop.{Gives, IsNoFault, Does};
ghost use Rattle.sx_steps.specs.Work.{plan_of};
ghost use Rattle.sx_unit.specs.Written.{unit_of};
ghost use Rattle.sx_sample.specs.Holding.{sample_files};
ghost use Rattle.sx_sampling.specs.SampleSteps as spec;

use crate::sample_unit::make_sample;
use std::alloc::Global;
use std::sync::ledger::Ledger;
use sx_outside::CleanShelf;
use sx_sample::{Summary, sample_shelf, summary_line};
use sx_steps::{StepError, Work};
use sx_term::{NoMemory, Steps};
use sx_unit::Compiled;

/// The line of the unit of the sample with so many names.
fn sample_work(alloc: Global, number: u32, unit: &Compiled) -> Result<Work, NoMemory>
    ensures { IfOk result (λ work. plan_of work ≡ spec.sample_plan number (unit_of unit.now)) }
{
    let summary = Summary {
        number,
        source_tokens: unit.source_tokens,
        base_tokens: unit.base_tokens,
        nodes: unit.nodes,
    };
    let lines = summary_line(alloc, &summary)?;
    Ok(Work {
        files: Vec::new(alloc),
        lines,
    })
}

/// What is left to do for the unit of the sample with so many names.
fn plan_line(alloc: Global, number: u32, unit: Compiled) -> Result<Work, StepError>
    ensures step { Gives plan_of (spec.PlansSample number (unit_of unit)) result }
    ensures no_fault { IsNoFault result }
{
    let work = sample_work(alloc, number, &unit);
    drop(unit);
    match work {
        Ok(work) => Ok(work),
        Err(_) => Err(StepError::Memory),
    }
}

/// The steps of the command over the files of the sample.
fn plan_over<L: Ledger>(
    alloc: Global,
    number: u32,
    shelf: &mut CleanShelf,
    steps: &mut Steps<L>,
) -> Result<Work, StepError>
    requires { clean_files_of shelf.old ≡ sample_files number }
    ensures step { Does plan_of (spec.Samples number) result steps.old steps.new }
    ensures no_fault { IsNoFault result }
{
    match make_sample(alloc, shelf, steps) {
        Ok(unit) => plan_line(alloc, number, unit),
        Err(e) => Err(e),
    }
}

/// The steps of `sample N`, for N from 1 to 300: the unit of the sample module with so many names
/// is made over the files that it needs, in memory, with 1,000,000 tries to spend for each walk and
/// 1,000,000 nodes for each derivation; and what is left to do is to write the line that tells how
/// big it is.
pub fn plan_sample<L: Ledger>(
    alloc: Global,
    number: u32,
    steps: &mut Steps<L>,
) -> Result<Work, StepError>
    requires some { 1 ≤ number }
    requires most { number ≤ 300 }
    ensures step { Does plan_of (spec.Samples number) result steps.old steps.new }
    ensures no_fault { IsNoFault result }
{
    match sample_shelf(alloc, number) {
        Ok(mut shelf) => {
            let work = plan_over(alloc, number, &mut shelf, steps);
            drop(shelf);
            work
        }
        Err(_) => Err(StepError::Memory),
    }
}
