//! Extension files as files that a walk goes through.

ghost use Rattle.std.specs.Prelude.{◌≡◌, IfOk};
ghost use Rattle.sx_uses.specs.ExtensionFile.{Extension, extension_of, extension_file};
ghost use Rattle.sx_uses.specs.ExtensionKind.{extensions_for};
ghost use Rattle.sx_uses.specs.ReadExtension.{wrong_language as stop_of_language};

use crate::extension_file::ExtensionFile;
use crate::read_extension::read_extension_file;
use std::alloc::Global;
use sx_outside::Shelf;
use sx_steps::{StepError, Stop, about, with_suffix};
use sx_term::{NoMemory, Text, copy_texts};
use sx_walking::WalkedKind;
use sx_words::{Defect, ExtensionDefect};

/// The extensions that are written for a language.
#[derive(Clone, Copy)]
pub struct ExtensionKind<'a> {
    /// The name of the language.
    pub language: &'a Text,
}

/// The refusal of an extension that is written for another language.
fn wrong_language(alloc: Global, name: &Text, language: &Text) -> Result<Stop, NoMemory>
    ensures { IfOk result (λ stop. stop ≡ stop_of_language (extension_file name.now) language.now) }
{
    let language = language.copy(alloc)?;
    match with_suffix(alloc, name, ".ext") {
        Ok(file) => Ok(about(
            file,
            Defect::Extension(ExtensionDefect::WrongLanguage(language)),
        )),
        Err(e) => {
            drop(language);
            Err(e)
        }
    }
}

impl WalkedKind for ExtensionKind<'_> {
    type File = ExtensionFile;

    ghost Data = { Extension };

    ghost says = { extension_of };

    ghost kind = { λ k. extensions_for k.language.now };

    fn name(&self, alloc: Global, file: &ExtensionFile) -> Result<Text, NoMemory> {
        file.header.name.copy(alloc)
    }

    fn read<S: Shelf>(
        &self,
        alloc: Global,
        name: &Text,
        shelf: &mut S,
    ) -> Result<ExtensionFile, StepError> {
        read_extension_file(alloc, name, shelf)
    }

    fn stands_on(
        &self,
        alloc: Global,
        name: &Text,
        file: &ExtensionFile,
    ) -> Result<Vec<Text>, StepError> {
        if file.header.language.same(self.language) {
            return Ok(copy_texts(alloc, &file.header.uses)?);
        }
        Err(StepError::Stopped(wrong_language(alloc, name, &file.header.language)?))
    }
}
