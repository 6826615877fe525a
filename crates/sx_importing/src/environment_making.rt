//! The step that makes the environment of a module.

ghost use Rattle.std.specs.Prelude.{IfOk};
ghost use Rattle.sx_term.specs.Term.{tree};
ghost use Rattle.sx_term.specs.declared.role.Role.TheVariants.{In};
ghost use Rattle.sx_typing.specs.BodySource.{IsTermFor};
ghost use Rattle.sx_environment.specs.SeenFrom.{CanSee, interfaces_of, seen_from};
ghost use Rattle.sx_steps.specs.Stop.{Gives, IsNoFault};
ghost use Rattle.sx_importing.specs.MakeEnvironment.{SeesImports};

use crate::import_stops::bad_import;
use std::alloc::Global;
use sx_environment::{Surroundings, environment};
use sx_interface::Import;
use sx_steps::StepError;
use sx_term::{Term, Text};

/// The environment of the imports, or the stop of the first refusal. The file is that of the
/// module: the stop is told of it where the environment is too deep. What it is seen from is a
/// dialect; each import has a name that is no literal of its language, and an interface that a file
/// can hold.
pub fn make_environment(
    alloc: Global,
    file: &Text,
    given: &Surroundings,
    imports: &[Import],
) -> Result<Term, StepError>
    requires { CanSee given.now imports.now }
    ensures step { Gives tree
        (SeesImports file.now (seen_from given.now) (interfaces_of imports.now)) result }
    // It is a term of the dialect, and its lexemes are no literals of the language.
    ensures good { IfOk result (λ t. IsTermFor (seen_from given.now).dialect In (tree t)) }
    ensures no_fault { IsNoFault result }
{
    match environment(alloc, given, imports) {
        Ok(made) => Ok(made),
        Err(error) => match bad_import(alloc, file, imports, error) {
            Ok(stop) => Err(StepError::Stopped(stop)),
            Err(_) => Err(StepError::Memory),
        },
    }
}
