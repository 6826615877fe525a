//! Modules as files that a walk goes through.

ghost use Rattle.std.specs.Prelude.{◌≡◌, IfOk};
ghost use Rattle.sx_headers.specs.ReadModule.{Module, module_of};
ghost use Rattle.sx_headers.specs.ModuleFiles.{module_file};
ghost use Rattle.sx_closure.specs.ModuleKind.{modules_with};
ghost use Rattle.sx_closure.specs.ReadImport.{language_differs as stop_of_language};

use crate::named_module::read_named;
use std::alloc::Global;
use sx_headers::ModuleFile;
use sx_outside::Shelf;
use sx_steps::{StepError, Stop, about, with_suffix};
use sx_term::{NoMemory, Text, copy_texts};
use sx_walking::WalkedKind;
use sx_words::{ClosureDefect, Defect};

/// The modules with a language.
#[derive(Clone, Copy)]
pub(crate) struct ModuleKind<'a> {
    /// The name of the language.
    pub language: &'a Text,
}

/// The refusal of a module whose language, which is given, is not that of its importer.
fn language_differs(alloc: Global, name: &Text, language: &Text) -> Result<Stop, NoMemory>
    ensures { IfOk result (λ stop. stop ≡ stop_of_language (module_file name.now) language.now) }
{
    let language = language.copy(alloc)?;
    match with_suffix(alloc, name, ".mod") {
        Ok(file) => Ok(about(
            file,
            Defect::Closure(ClosureDefect::LanguageDiffers(language)),
        )),
        Err(e) => {
            drop(language);
            Err(e)
        }
    }
}

impl WalkedKind for ModuleKind<'_> {
    type File = ModuleFile;

    ghost Data = { Module };

    ghost says = { module_of };

    ghost kind = { λ k. modules_with k.language.now };

    fn name(&self, alloc: Global, file: &ModuleFile) -> Result<Text, NoMemory> {
        file.header.name.copy(alloc)
    }

    fn read<S: Shelf>(
        &self,
        alloc: Global,
        name: &Text,
        shelf: &mut S,
    ) -> Result<ModuleFile, StepError> {
        read_named(alloc, name, shelf)
    }

    fn stands_on(
        &self,
        alloc: Global,
        name: &Text,
        file: &ModuleFile,
    ) -> Result<Vec<Text>, StepError> {
        if file.header.language.same(self.language) {
            return Ok(copy_texts(alloc, &file.header.imports)?);
        }
        Err(StepError::Stopped(language_differs(alloc, name, &file.header.language)?))
    }
}
