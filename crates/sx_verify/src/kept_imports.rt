//! The steps that read the interfaces of the imports, whose digests an interface keeps.

ghost use Rattle.std.specs.Prelude.{◌≡◌, ◌++◌, ◌∷◌, [], IfOk, map};
ghost use Rattle.std.specs.List.{AllByRecursion};
ghost use Rattle.sx_interface.specs.InterfaceView.{interface_view, mark_view};
ghost use Rattle.sx_outside.specs.Told.{WhereTold};
ghost use Rattle.sx_environment.specs.SeenFrom.{IsShort, interfaces_of};
ghost use Rattle.sx_steps.specs.Stop.{Gives, OnlyReads, IsNoFault};
ghost use Rattle.sx_importing.specs.Each.{GivesNext};
ghost use Rattle.sx_importing.specs.ReadImports.{import_of};
ghost use Rattle.sx_verify.specs.BaseFits.{mark_names};
ghost use Rattle.sx_verify.specs.KeptImports as spec;

use std::alloc::Global;
use sx_importing::{add_import, digest_differs, read_import};
use sx_interface::{Digest, Import, ImportMark};
use sx_outside::Shelf;
use sx_steps::StepError;
use sx_term::Text;
use sx_words::Kept;

/// The digest of the import that the interface in the file keeps is the one that was found.
fn keep_import(
    alloc: Global,
    file: &Text,
    mark: &ImportMark,
    found: &Digest,
) -> Result<(), StepError>
    ensures step { Gives (λ done. done)
        (spec.KeepsImport file.now (mark_view mark.now) found.now.bytes) result }
    ensures no_fault { IsNoFault result }
{
    if mark.digest.bytes == found.bytes {
        return Ok(());
    }
    let name = match mark.name.copy(alloc) {
        Ok(name) => name,
        Err(_) => return Err(StepError::Memory),
    };
    let what = Kept::ImportDigest(name);
    match digest_differs(alloc, file, what, &mark.digest, found) {
        Ok(stop) => Err(StepError::Stopped(stop)),
        Err(_) => Err(StepError::Memory),
    }
}

/// The import that was read, where its digest is the one that is kept.
fn compare_import(
    alloc: Global,
    file: &Text,
    mark: &ImportMark,
    import: Import,
) -> Result<Import, StepError>
    ensures step { Gives (λ i. interface_view i.interface)
        (spec.ComparesImport file.now (mark_view mark.now) (import_of import)) result }
    ensures same { IfOk result (λ i. i.interface ≡ import.interface) }
    ensures no_fault { IsNoFault result }
{
    match keep_import(alloc, file, mark, &import.digest) {
        Ok(()) => Ok(import),
        Err(e) => {
            drop(import);
            Err(e)
        }
    }
}

/// The interface of the import, whose digest is the one that is kept.
fn read_kept<S: Shelf>(
    alloc: Global,
    file: &Text,
    mark: &ImportMark,
    shelf: &mut S,
) -> Result<Import, StepError>
    ensures step { WhereTold (S.content shelf.old)
        (λ files. Gives (λ i. interface_view i.interface)
        (spec.ReadsKept file.now files (mark_view mark.now)) result) }
    ensures short { IfOk result (λ i. IsShort (interface_view i.interface)) }
    ensures name { IfOk result (λ i. i.interface.module ≡ mark.now.name) }
    ensures reads { OnlyReads (S.content shelf.old) (S.content shelf.new)
        (S.read_faults shelf.old) (S.read_faults shelf.new)
        (S.write_faults shelf.old) (S.write_faults shelf.new) result }
{
    match read_import(alloc, &mark.name, shelf) {
        Ok(import) => compare_import(alloc, file, mark, import),
        Err(e) => Err(e),
    }
}

/// Reads the interface of the import, and adds it behind those that were read.
fn read_next<S: Shelf>(
    alloc: Global,
    file: &Text,
    mark: &ImportMark,
    imports: &mut Vec<Import>,
    shelf: &mut S,
) -> Result<(), StepError>
    requires short { AllByRecursion IsShort (interfaces_of imports.old.items) }
    ensures step { WhereTold (S.content shelf.old)
        (λ files. Gives (λ done. interfaces_of imports.new.items)
        (GivesNext (spec.ReadsKept file.now files) (interfaces_of imports.old.items)
        (mark_view mark.now)) result) }
    ensures short { IfOk result
        (λ done. AllByRecursion IsShort (interfaces_of imports.new.items)) }
    ensures names { IfOk result (λ done. map (λ it. it.name) (interfaces_of imports.new.items) ≡
        map (λ it. it.name) (interfaces_of imports.old.items) ++ mark.now.name ∷ []) }
    ensures reads { OnlyReads (S.content shelf.old) (S.content shelf.new)
        (S.read_faults shelf.old) (S.read_faults shelf.new)
        (S.write_faults shelf.old) (S.write_faults shelf.new) result }
{
    match read_kept(alloc, file, mark, shelf) {
        Ok(import) => match add_import(imports, import) {
            Ok(()) => Ok(()),
            Err(_) => Err(StepError::Memory),
        },
        Err(e) => Err(e),
    }
}

/// The interfaces of the imports, in order, whose digests are those that the interface in the file
/// keeps.
pub(crate) fn read_all_kept<S: Shelf>(
    alloc: Global,
    file: &Text,
    marks: &[ImportMark],
    shelf: &mut S,
) -> Result<Vec<Import>, StepError>
    ensures step { WhereTold (S.content shelf.old)
        (λ files. Gives (λ v. interfaces_of v.items)
        (spec.ReadsAllKept file.now files (map mark_view marks.now)) result) }
    ensures short { IfOk result (λ v. AllByRecursion IsShort (interfaces_of v.items)) }
    ensures names { IfOk result
        (λ v. map (λ it. it.name) (interfaces_of v.items) ≡ mark_names (map mark_view marks.now)) }
    ensures reads { OnlyReads (S.content shelf.old) (S.content shelf.new)
        (S.read_faults shelf.old) (S.read_faults shelf.new)
        (S.write_faults shelf.old) (S.write_faults shelf.new) result }
{
    let mut imports = Vec::new(alloc);
    for i in 0..marks.len() {
        let mark = &marks[i];
        match read_next(alloc, file, mark, &mut imports, shelf) {
            Ok(()) => {}
            Err(e) => {
                drop(imports);
                return Err(e);
            }
        }
    }
    Ok(imports)
}
