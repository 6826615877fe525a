//! The step that compiles a module.

ghost use Rattle.std.specs.Prelude.{IfOk};
ghost use Rattle.sx_typing.specs.BodySource.{CanType};
ghost use Rattle.sx_unit.specs.Modules.{module_data};
ghost use Rattle.sx_unit.specs.Written.{unit_of};
ghost use Rattle.sx_steps.specs.Stop.{Does, IsNoFault};
ghost use Rattle.sx_compiling.specs.CanMake.{HasDerivationList};
ghost use Rattle.sx_compiling.specs.CompileModule.{CompilesTrying};

use crate::module_stops::bad_module;
use std::alloc::Global;
use std::sync::ledger::Ledger;
use sx_extcheck::Budgets;
use sx_steps::StepError;
use sx_term::{Steps, Text};
use sx_unit::{Compiled, ModuleSource, compile};

/// The unit of the module in the file.
pub(crate) fn compile_module<L: Ledger>(
    alloc: Global,
    file: &Text,
    given: &ModuleSource,
    budgets: Budgets,
    steps: &mut Steps<L>,
) -> Result<Compiled, StepError>
    requires { CanType given.now.source }
    ensures step { Does unit_of (CompilesTrying file.now budgets (module_data given.now)) result
        steps.old steps.new }
    ensures list { IfOk result (HasDerivationList given.now.source.dialect.language.now) }
    ensures no_fault { IsNoFault result }
{
    match compile(alloc, given, budgets, steps) {
        Ok(compiled) => Ok(compiled),
        Err(error) => match bad_module(alloc, file, error) {
            Ok(stop) => Err(StepError::Stopped(stop)),
            Err(_) => Err(StepError::Memory),
        },
    }
}
