//! The step that reads the extensions of a module, each file once for several modules.

ghost use Rattle.std.specs.Prelude.{◌≤◌, IfOk, length, map};
ghost use Rattle.std.specs.List.{AllByRecursion};
ghost use Rattle.sx_outside.specs.Files.{Files};
ghost use Rattle.sx_outside.specs.Told.{WhereTold};
ghost use Rattle.sx_outside.specs.Views.{clean_files_of};
ghost use Rattle.sx_steps.specs.Stop.{Gives, OnlyReads};
ghost use Rattle.sx_uses.specs.ExtensionFile.{extension_of, extensions_of, IsHeaderStated};
ghost use Rattle.sx_uses.specs.ReadUses.{ReadsUses};
ghost use Rattle.sx_compiling.specs.KeptFiles.{AreKeptOf, StandsInFile};

use crate::given::Given;
use crate::kept_extensions::KeptExtensions;
use std::alloc::Global;
use sx_outside::{CleanShelf, Shelf};
use sx_steps::{StepError, with_suffix};
use sx_term::{NoMemory, copy_texts};
use sx_uses::ExtensionFile;
use sx_walking::read_reached;

/// The extensions that are reached from those that the module uses. Files that are kept are not
/// read from the shelf.
fn reach_extensions<S: Shelf>(
    alloc: Global,
    given: &Given,
    kept: &CleanShelf,
    shelf: &mut S,
) -> Result<Vec<ExtensionFile>, StepError>
    requires { WhereTold (S.content shelf.old) (AreKeptOf (clean_files_of kept.now)) }
    ensures step { WhereTold (S.content shelf.old) (λ files. Gives extensions_of
        (ReadsUses given.now.file.now given.now.source.now.header.language
        given.now.source.now.header.uses.items files) result) }
    ensures stated { IfOk result (λ xs. AllByRecursion IsHeaderStated (extensions_of xs)) }
    ensures few { IfOk result (λ xs. length xs.items ≤ 256) }
    ensures reads { OnlyReads (S.content shelf.old) (S.content shelf.new)
        (S.read_faults shelf.old) (S.read_faults shelf.new)
        (S.write_faults shelf.old) (S.write_faults shelf.new) result }
{
    let written_for = &given.source.header.language;
    let kind = KeptExtensions {
        language: written_for,
        kept,
    };
    match copy_texts(alloc, &given.source.header.uses) {
        Ok(roots) => read_reached(alloc, &kind, given.file, None, roots, shelf),
        Err(_) => Err(StepError::Memory),
    }
}

/// Keeps the file of the extension, if it is not kept yet.
fn keep_extension(
    alloc: Global,
    extension: &ExtensionFile,
    kept: &mut CleanShelf,
) -> Result<(), NoMemory>
    ensures { (files : Files) → AreKeptOf (clean_files_of kept.old) files →
        StandsInFile files (extension_of extension.now) → AreKeptOf
        (clean_files_of kept.new) files }
{
    let file = with_suffix(alloc, &extension.header.name, ".ext")?;
    if kept.get(&file).is_some() {
        return Ok(());
    }
    let bytes = Vec::from_slice(alloc, &extension.bytes)?;
    kept.put(file, bytes)
}

/// Keeps the files of the extensions that are not kept yet.
fn keep_extensions(
    alloc: Global,
    extensions: &[ExtensionFile],
    kept: &mut CleanShelf,
) -> Result<(), NoMemory>
    ensures { (files : Files) → AreKeptOf (clean_files_of kept.old) files →
        AllByRecursion (StandsInFile files) (map extension_of extensions.now) →
        AreKeptOf (clean_files_of kept.new) files }
{
    for i in 0..extensions.len() {
        let extension = &extensions[i];
        keep_extension(alloc, extension, kept)?;
    }
    Ok(())
}

/// The extensions that are reached from those that the module uses, each after those that it uses.
/// Files that are kept are not read from the shelf, and those that are read are kept.
pub(crate) fn read_extensions<S: Shelf>(
    alloc: Global,
    given: &Given,
    kept: &mut CleanShelf,
    shelf: &mut S,
) -> Result<Vec<ExtensionFile>, StepError>
    requires { WhereTold (S.content shelf.old) (AreKeptOf (clean_files_of kept.old)) }
    ensures step { WhereTold (S.content shelf.old) (λ files. Gives extensions_of
        (ReadsUses given.now.file.now given.now.source.now.header.language
        given.now.source.now.header.uses.items files) result) }
    ensures stated { IfOk result (λ xs. AllByRecursion IsHeaderStated (extensions_of xs)) }
    ensures few { IfOk result (λ xs. length xs.items ≤ 256) }
    ensures kept { WhereTold (S.content shelf.old) (AreKeptOf (clean_files_of kept.new)) }
    ensures reads { OnlyReads (S.content shelf.old) (S.content shelf.new)
        (S.read_faults shelf.old) (S.read_faults shelf.new)
        (S.write_faults shelf.old) (S.write_faults shelf.new) result }
{
    match reach_extensions(alloc, given, kept, shelf) {
        Ok(extensions) => match keep_extensions(alloc, &extensions, kept) {
            Ok(()) => Ok(extensions),
            Err(_) => {
                drop(extensions);
                Err(StepError::Memory)
            }
        },
        Err(e) => Err(e),
    }
}
