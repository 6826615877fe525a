//! What is left to do for a unit that was made.

ghost use Rattle.std.specs.Prelude.{◌≡◌, IfOk};
ghost use Rattle.sx_unit.specs.Written.{unit_of};
ghost use Rattle.sx_steps.specs.Work.{plan_of};
ghost use Rattle.sx_compiling.specs.UnitPlans.{unit_plan};

use std::alloc::Global;
use sx_steps::{Work, built_work};
use sx_term::{NoMemory, Text};
use sx_unit::Compiled;

/// The three files of the unit of the module with this name, and the line.
pub fn unit_work(alloc: Global, name: &Text, unit: Compiled) -> Result<Work, NoMemory>
    ensures { IfOk result (λ work. plan_of work ≡ unit_plan name.now (unit_of unit)) }
{
    let Compiled {
        base,
        interface,
        derivation,
        list,
        nodes,
        ..
    } = unit;
    drop(list);
    built_work(alloc, name, base, derivation, interface, nodes)
}
