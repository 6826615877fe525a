//! The steps that read the interfaces of imports.

ghost use Rattle.std.specs.Prelude.{◌≡◌, ◌++◌, ◌∷◌, [], IfOk, map};
ghost use Rattle.std.specs.List.{AllByRecursion};
ghost use Rattle.sha2.specs.Sha256.{sha256};
ghost use Rattle.sx_interface.specs.InterfaceView.{interface_view};
ghost use Rattle.sx_outside.specs.Told.{WhereTold};
ghost use Rattle.sx_environment.specs.SeenFrom.{IsShort, interfaces_of};
ghost use Rattle.sx_steps.specs.Stop.{Gives, OnlyReads};
ghost use Rattle.sx_importing.specs.Each.{GivesNext};
ghost use Rattle.sx_importing.specs.ReadImports as spec;
ghost use Rattle.sx_importing.specs.ReadImports.{import_of};

use std::alloc::Global;
use sx_headers::{InterfaceFile, read_interface_file};
use sx_interface::{Import, digest, interfaces_are_within};
use sx_outside::Shelf;
use sx_steps::{StepError, with_suffix};
use sx_term::{NoMemory, Text};

/// The import whose file was read.
fn import_in(held: InterfaceFile) -> Import
    ensures interface { result.interface ≡ held.interface }
    ensures digest { result.digest.bytes ≡ sha256 held.bytes.items }
{
    let InterfaceFile { bytes, interface } = held;
    let found = digest(&bytes);
    drop(bytes);
    Import {
        interface,
        digest: found,
    }
}

/// The interface of the import with this name, with the digest of its file.
pub fn read_import<S: Shelf>(alloc: Global, name: &Text, shelf: &mut S) -> Result<Import, StepError>
    ensures step { WhereTold (S.content shelf.old)
        (λ files. Gives import_of (spec.ReadsImport files name.now) result) }
    ensures short { IfOk result (λ i. IsShort (interface_view i.interface)) }
    ensures name { IfOk result (λ i. i.interface.module ≡ name.now) }
    ensures reads { OnlyReads (S.content shelf.old) (S.content shelf.new)
        (S.read_faults shelf.old) (S.read_faults shelf.new)
        (S.write_faults shelf.old) (S.write_faults shelf.new) result }
{
    interfaces_are_within();
    let own = with_suffix(alloc, name, ".int")?;
    match read_interface_file(alloc, &own, name, shelf) {
        Ok(held) => Ok(import_in(held)),
        Err(e) => Err(e),
    }
}

/// Adds the import behind those that were read.
pub fn add_import(imports: &mut Vec<Import>, import: Import) -> Result<(), NoMemory>
    ensures { IfOk result (λ _. imports.new.items ≡ imports.old.items ++ import ∷ []) }
{
    imports.push(import)?;
    Ok(())
}

/// Reads the interface of the import, and adds it behind those that were read.
fn read_next<S: Shelf>(
    alloc: Global,
    name: &Text,
    imports: &mut Vec<Import>,
    shelf: &mut S,
) -> Result<(), StepError>
    requires short { AllByRecursion IsShort (interfaces_of imports.old.items) }
    ensures step { WhereTold (S.content shelf.old)
        (λ files. Gives (λ done. map import_of imports.new.items)
        (GivesNext (spec.ReadsImport files) (map import_of imports.old.items) name.now) result) }
    ensures short { IfOk result
        (λ done. AllByRecursion IsShort (interfaces_of imports.new.items)) }
    ensures names { IfOk result (λ done. map (λ it. it.name) (interfaces_of imports.new.items) ≡
        map (λ it. it.name) (interfaces_of imports.old.items) ++ name.now ∷ []) }
    ensures reads { OnlyReads (S.content shelf.old) (S.content shelf.new)
        (S.read_faults shelf.old) (S.read_faults shelf.new)
        (S.write_faults shelf.old) (S.write_faults shelf.new) result }
{
    match read_import(alloc, name, shelf) {
        Ok(import) => match add_import(imports, import) {
            Ok(()) => Ok(()),
            Err(_) => Err(StepError::Memory),
        },
        Err(e) => Err(e),
    }
}

/// The interfaces of the imports with these names, in order, with the digests of their files.
pub fn read_imports<S: Shelf>(
    alloc: Global,
    names: &[Text],
    shelf: &mut S,
) -> Result<Vec<Import>, StepError>
    ensures step { WhereTold (S.content shelf.old)
        (λ files. Gives (λ v. map import_of v.items) (spec.ReadsImports files names.now) result) }
    ensures short { IfOk result (λ v. AllByRecursion IsShort (interfaces_of v.items)) }
    ensures names { IfOk result (λ v. map (λ it. it.name) (interfaces_of v.items) ≡ names.now) }
    ensures reads { OnlyReads (S.content shelf.old) (S.content shelf.new)
        (S.read_faults shelf.old) (S.read_faults shelf.new)
        (S.write_faults shelf.old) (S.write_faults shelf.new) result }
{
    let mut imports = Vec::new(alloc);
    for i in 0..names.len() {
        let name = &names[i];
        match read_next(alloc, name, &mut imports, shelf) {
            Ok(()) => {}
            Err(e) => {
                drop(imports);
                return Err(e);
            }
        }
    }
    Ok(imports)
}
