//! The steps that look at the names of a module's imports.

ghost use Rattle.std.specs.Prelude.{◌≡◌, ◌∷◌, [], IfOk};
ghost use Rattle.sx_interface.specs.HeaderView.{header_view};
ghost use Rattle.sx_steps.specs.Stop.{Gives, IsNoFault};
ghost use Rattle.sx_walking.specs.Reached.{TellsCycle};
ghost use Rattle.sx_compile.specs.Imports.{ImportsOthers, ImportsFew};

use crate::asked::Asked;
use std::alloc::Global;
use sx_headers::ModuleFile;
use sx_steps::{StepError, Stop, refused};
use sx_term::{NoMemory, Text};
use sx_words::{ClosureDefect, Defect};

/// The most files that imports may have.
const MOST_IMPORTS: usize = 255;

/// The name twice.
fn twice(alloc: Global, name: &Text) -> Result<Vec<Text>, NoMemory>
    ensures { IfOk result (λ names. names.items ≡ name.now ∷ name.now ∷ []) }
{
    let mut names = Vec::new(alloc);
    names.push(name.copy(alloc)?)?;
    names.push(name.copy(alloc)?)?;
    Ok(names)
}

/// The stop of a module that imports itself.
fn own_cycle(asked: &Asked) -> Result<Stop, NoMemory>
    ensures { IfOk result (TellsCycle asked.now.file.now
        (asked.now.name.now ∷ asked.now.name.now ∷ [])) }
{
    let names = twice(asked.alloc, asked.name)?;
    refused(
        asked.alloc,
        asked.file,
        Defect::Closure(ClosureDefect::Cycle(names)),
    )
}

/// The module does not import itself. Where it does, this is a cycle.
pub(crate) fn check_others(asked: &Asked, source: &ModuleFile) -> Result<(), StepError>
    ensures step { Gives (λ done. done) (ImportsOthers asked.now.file.now asked.now.name.now
        (header_view source.now.bytes.items source.now.header)) result }
    ensures no_fault { IsNoFault result }
{
    if !source.header.imports.contains(asked.name) {
        return Ok(());
    }
    match own_cycle(asked) {
        Ok(stop) => Err(StepError::Stopped(stop)),
        Err(_) => Err(StepError::Memory),
    }
}

/// The module does not have more imports than it may.
pub(crate) fn check_few(alloc: Global, file: &Text, source: &ModuleFile) -> Result<(), StepError>
    ensures step { Gives (λ done. done) (ImportsFew file.now
        (header_view source.now.bytes.items source.now.header)) result }
    ensures no_fault { IsNoFault result }
{
    if source.header.imports.len() <= MOST_IMPORTS {
        return Ok(());
    }
    match refused(alloc, file, Defect::Closure(ClosureDefect::TooManyModules)) {
        Ok(stop) => Err(StepError::Stopped(stop)),
        Err(_) => Err(StepError::Memory),
    }
}
