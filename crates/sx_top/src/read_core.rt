//! The step that reads a core file.

ghost use Rattle.std.specs.Prelude.{◌≤◌, IfOk, length};
ghost use Rattle.sx_outside.specs.Told.{WhereTold};
ghost use Rattle.sx_core.specs.Problem.{problem};
ghost use Rattle.sx_core.specs.CoreRead.{IsCoreAnswer};
ghost use Rattle.sx_steps.specs.Lower.{Lower};
ghost use Rattle.sx_top.specs.LowerStops.{core_stop};
ghost use Rattle.sx_top.specs.Proper.{IsProper};
ghost use Rattle.sx_top.specs.ReadCore.{ReadsCore};
ghost use Rattle.sx_steps.specs.Stop.{Gives, OnlyReads, IsNoFault};
ghost use Rattle.sx_term.specs.Limits.{most_bytes};

use crate::core_stops::bad_core;
use std::alloc::Global;
use sx_core::{CoreProblem, read_core_file};
use sx_outside::Shelf;
use sx_steps::{StepError, read_file};
use sx_term::{MOST_BYTES, Text};

/// The problem that the bytes of the file state.
fn state_problem(alloc: Global, file: &Text, bytes: &[u8]) -> Result<CoreProblem, StepError>
    requires { length bytes.now ≤ most_bytes }
    ensures step { Gives problem (Lower (core_stop file.now) (IsCoreAnswer bytes.now)) result }
    ensures proper { IfOk result (λ p. IsProper (problem p)) }
    ensures no_fault { IsNoFault result }
{
    match read_core_file(alloc, bytes) {
        Ok(problem) => Ok(problem),
        Err(error) => Err(StepError::Stopped(bad_core(alloc, file, error)?)),
    }
}

/// The problem that the file states.
pub fn read_problem<S: Shelf>(
    alloc: Global,
    file: &Text,
    shelf: &mut S,
) -> Result<CoreProblem, StepError>
    ensures step { WhereTold (S.content shelf.old)
        (λ files. Gives problem (ReadsCore file.now files) result) }
    ensures proper { IfOk result (λ p. IsProper (problem p)) }
    ensures reads { OnlyReads (S.content shelf.old) (S.content shelf.new)
        (S.read_faults shelf.old) (S.read_faults shelf.new)
        (S.write_faults shelf.old) (S.write_faults shelf.new) result }
{
    match read_file(alloc, file, MOST_BYTES, shelf) {
        Ok(bytes) => state_problem(alloc, file, &bytes),
        Err(e) => Err(e),
    }
}
