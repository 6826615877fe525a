//! The step that reads the body of a module.

ghost use Rattle.std.specs.Prelude.{◌≡◌, ◌⊎◌, IfOk, Some};
ghost use Rattle.sx_term.specs.Term.{tree};
ghost use Rattle.sx_term.specs.declared.role.Role.TheVariants.{Sub};
ghost use Rattle.sx_typing.specs.declared.module_error.ModuleError.TheVariants.{Memory};
ghost use Rattle.sx_typing.specs.Refused.{HasReadBody, IsBadSource};
ghost use Rattle.sx_typing.specs.BodySource.{BodySource as SourceData, CanType, IsTermFor};
ghost use Rattle.sx_typing.specs.BodySource.{source_of};
ghost use Rattle.sx_steps.specs.Stop.{Gives, IsNoFault};
ghost use Rattle.sx_verify.specs.Ground.{ReadsBody};
ghost use Rattle.sx_verify.specs.Ground.{body_stop as stop_of_body};

use std::alloc::Global;
use sx_headers::{uncut_text, unread_text};
use sx_steps::{StepError, Stop};
use sx_term::{NoMemory, Term, Text};
use sx_typing::{Body, BodySource, ModuleError, read_source};

/// The refusal of a body that is not read.
fn bad_body(alloc: Global, file: &Text, error: ModuleError) -> Result<Stop, NoMemory>
    requires { (s : SourceData) × IsBadSource s 0 error ×
        ((error ≡ Memory) ⊎ (HasReadBody s → ⊥)) }
    ensures { IfOk result (λ stop. stop_of_body file.now error ≡ Some stop) }
{
    match error {
        ModuleError::Token {
            line,
            column,
            error,
        } => uncut_text(alloc, file, line, column, error),
        ModuleError::Read {
            line,
            column,
            error,
        } => unread_text(alloc, file, line, column, error),
        ModuleError::Memory => Err(NoMemory::Memory),
        _ => unreachable!(),
    }
}

/// The term of the body in the file.
pub(crate) fn read_subject(
    alloc: Global,
    file: &Text,
    source: &BodySource,
) -> Result<Term, StepError>
    requires { CanType source.now }
    ensures step { Gives tree (ReadsBody file.now (source_of source.now)) result }
    ensures good { IfOk result (λ t. IsTermFor (source_of source.now).dialect Sub (tree t)) }
    ensures no_fault { IsNoFault result }
{
    match read_source(alloc, source) {
        Ok(body) => {
            let Body {
                tokens,
                reading,
                term,
            } = body;
            drop(tokens);
            drop(reading);
            Ok(term)
        }
        Err(error) => match bad_body(alloc, file, error) {
            Ok(stop) => Err(StepError::Stopped(stop)),
            Err(_) => Err(StepError::Memory),
        },
    }
}
