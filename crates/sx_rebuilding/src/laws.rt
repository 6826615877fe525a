//! What is proved of runs over the files that a build left.

ghost use Rattle.sx_rebuilding.specs.GivenAgain.{CompileRepeatsBuild, VerifyFollowsBuild};

use crate::compile_steps::compiling_repeats_building;
use crate::verify_steps::verifying_follows_building;

/// Over the files that a build without auditors left, `compile` of each of the modules that were
/// built, with the same tries and nodes, changes no file, but for read faults and out of memory.
pub fn compile_repeats_build()
    ensures { CompileRepeatsBuild }
{
    compiling_repeats_building();
}

/// Over the files that a build left, `verify` of each of the modules that were built is not
/// refused, but for read faults and out of memory.
pub fn verify_follows_build()
    ensures { VerifyFollowsBuild }
{
    verifying_follows_building();
}
