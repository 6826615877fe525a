//! Extension files as files that a walk goes through, where some were read before.

ghost use Rattle.std.specs.Prelude.{◌≡◌, IfOk, Some};
ghost use Rattle.sx_outside.specs.Files.{Files};
ghost use Rattle.sx_outside.specs.Views.{clean_files_of};
ghost use Rattle.sx_steps.specs.Stop.{Gives, IsNoFault};
ghost use Rattle.sx_uses.specs.ExtensionFile.{Extension, extension_of, extension_file};
ghost use Rattle.sx_uses.specs.ExtensionFile.{IsHeaderStated};
ghost use Rattle.sx_uses.specs.ReadExtension.{ReadsFile};
ghost use Rattle.sx_compiling.specs.KeptFiles.{extensions_beside};

use std::alloc::Global;
use sx_outside::{CleanShelf, Shelf};
use sx_steps::{StepError, with_suffix};
use sx_term::{NoMemory, Text};
use sx_uses::{ExtensionFile, ExtensionKind, read_extension_file};
use sx_walking::WalkedKind;

/// The extensions that are written for a language, with the files that were read before.
#[derive(Clone, Copy)]
pub(crate) struct KeptExtensions<'a> {
    /// The name of the language.
    pub language: &'a Text,
    /// The files of extensions that are not read again.
    pub kept: &'a CleanShelf,
}

/// A shelf with one file.
fn shelf_of(alloc: Global, file: &Text, bytes: &[u8]) -> Result<CleanShelf, NoMemory>
    ensures { IfOk result (λ shelf. clean_files_of shelf file.now ≡ Some bytes.now) }
{
    let mut shelf = CleanShelf::new(alloc);
    let name = file.copy(alloc)?;
    let bytes = Vec::from_slice(alloc, bytes)?;
    shelf.put(name, bytes)?;
    Ok(shelf)
}

/// The extension with this name, whose file has these bytes.
fn state_again(
    alloc: Global,
    file: &Text,
    name: &Text,
    bytes: &[u8],
) -> Result<ExtensionFile, StepError>
    requires { file.now ≡ extension_file name.now }
    ensures step { (files : Files) → files (extension_file name.now) ≡ Some bytes.now →
        Gives extension_of (ReadsFile files name.now) result }
    ensures named { IfOk result (λ x. x.header.name ≡ name.now) }
    ensures stated { IfOk result (λ x. IsHeaderStated (extension_of x)) }
    ensures no_fault { IsNoFault result }
{
    match shelf_of(alloc, file, bytes) {
        Ok(mut shelf) => {
            let again = read_extension_file(alloc, name, &mut shelf);
            drop(shelf);
            again
        }
        Err(_) => Err(StepError::Memory),
    }
}

impl WalkedKind for KeptExtensions<'_> {
    type File = ExtensionFile;

    ghost Data = { Extension };

    ghost says = { extension_of };

    ghost kind = { λ k. extensions_beside (clean_files_of k.kept.now) k.language.now };

    fn name(&self, alloc: Global, file: &ExtensionFile) -> Result<Text, NoMemory> {
        file.header.name.copy(alloc)
    }

    fn read<S: Shelf>(
        &self,
        alloc: Global,
        name: &Text,
        shelf: &mut S,
    ) -> Result<ExtensionFile, StepError> {
        let file = with_suffix(alloc, name, ".ext")?;
        match self.kept.get(&file) {
            Some(bytes) => state_again(alloc, &file, name, bytes),
            None => read_extension_file(alloc, name, shelf),
        }
    }

    fn stands_on(
        &self,
        alloc: Global,
        name: &Text,
        file: &ExtensionFile,
    ) -> Result<Vec<Text>, StepError> {
        let kind = ExtensionKind {
            language: self.language,
        };
        kind.stands_on(alloc, name, file)
    }
}
