//! What is proved of the steps of `compile` over the files that a build leaves.

ghost use Rattle.sx_rebuilding.specs.Again.{CompilingRepeatsBuilding};

use sx_compile::compiles_agree;

/// Where `build NAME` without auditors ended with a plan, and the files are as it leaves them,
/// `compile M` with the same budgets, of each module M that was built, ends with a plan too, but
/// for read faults and out of memory; and that plan changes no file. So what a build leaves of a
/// module is what `compile` makes of it against the interfaces that the build leaves.
pub fn compiling_repeats_building()
    ensures { CompilingRepeatsBuilding }
{
    compiles_agree();
}
