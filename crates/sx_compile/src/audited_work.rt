//! What is left to do once the auditors were shown a unit.

ghost use Rattle.std.specs.Prelude.{◌≡◌, IfOk, map};
ghost use Rattle.sx_unit.specs.Written.{unit_of};
ghost use Rattle.sx_steps.specs.Stop.{Gives, IsNoFault};
ghost use Rattle.sx_steps.specs.Work.{plan_of};
ghost use Rattle.sx_compiling.specs.CanMake.{HasDerivationList, given_of};
ghost use Rattle.sx_headers.specs.ModuleFiles.{module_file};
ghost use Rattle.sx_compile.specs.AuditedPlans.{AuditsUnit, audited_plan};

use crate::asked::Asked;
use std::alloc::Global;
use sx_audit::Auditor;
use sx_auditing::{put_texts, show_unit};
use sx_compiling::{Given, unit_work};
use sx_steps::{StepError, Work};
use sx_term::{NoMemory, Text};
use sx_unit::Compiled;

/// The three files of the unit, its line, and the texts of the auditors.
fn audited_work(
    alloc: Global,
    name: &Text,
    unit: Compiled,
    auditors: &[Box<dyn Auditor>],
) -> Result<Work, NoMemory>
    ensures { IfOk result (λ work. plan_of work ≡
        audited_plan name.now (unit_of unit) (map (λ b. meaning b) auditors.now)) }
{
    let mut work = unit_work(alloc, name, unit)?;
    match put_texts(alloc, auditors, &mut work.lines) {
        Ok(()) => Ok(work),
        Err(e) => {
            drop(work);
            Err(e)
        }
    }
}

/// The steps from the unit: it is shown to the auditors.
pub(crate) fn audit_unit(
    asked: &Asked,
    given: &Given,
    unit: Compiled,
    auditors: &mut Vec<Box<dyn Auditor>>,
) -> Result<Work, StepError>
    requires file { given.now.file.now ≡ module_file asked.now.name.now }
    requires list { HasDerivationList given.now.language.now.language unit }
    ensures step { Gives plan_of (AuditsUnit asked.now.name.now
        (given_of given.now).language.language.rules (map (λ b. meaning b) auditors.old.items)
        (unit_of unit)) result }
    ensures no_fault { IsNoFault result }
{
    let rules = &given.language.language.rules;
    match show_unit(asked.alloc, given.file, auditors, rules, &unit.list) {
        Ok(()) => match audited_work(asked.alloc, asked.name, unit, auditors) {
            Ok(work) => Ok(work),
            Err(_) => Err(StepError::Memory),
        },
        Err(e) => {
            drop(unit);
            Err(e)
        }
    }
}
