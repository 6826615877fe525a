//! What a module imports of those that were made before it.

ghost use Rattle.std.specs.Prelude.{◌≡◌, IfOk, Some, Contains, map};
ghost use Rattle.std.specs.List.{AllByRecursion};
ghost use Rattle.sx_interface.specs.InterfaceView.{interface_view};
ghost use Rattle.sx_environment.specs.SeenFrom.{IsShort, interfaces_of};
ghost use Rattle.sx_outside.specs.Files.{Files};
ghost use Rattle.sx_steps.specs.Stop.{Gives, IsNoFault};
ghost use Rattle.sx_steps.specs.Unit.{interface_file};
ghost use Rattle.sx_importing.specs.ReadImports.{import_of, ReadsImport, ReadsImports};
ghost use Rattle.sx_build.specs.Buildings.{made_view, mades_view, AreAmong, AreNamedApart};
ghost use Rattle.sx_build.specs.MadeModules.{with_made};
ghost use Rattle.sx_build.specs.Remembering.{remembered_imports, IsImportOf, IsOwnImport};
ghost use Rattle.sx_build.specs.Remembering.{Remembers};

use crate::made::Made;
use crate::remembered::Remembered;
use std::alloc::Global;
use sx_headers::bad_header;
use sx_importing::add_import;
use sx_interface::{Import, digest, interfaces_are_within, read_interface};
use sx_steps::{StepError, refused, with_suffix};
use sx_term::{MOST_BYTES, Text};
use sx_words::{Defect, FileDefect};

/// The module with this name, which is among those that were made.
fn find<'a>(mades: &'a [Made], name: &Text) -> &'a Made
    requires { Contains (map (λ m. m.name) (mades_view mades.now)) name.now }
    ensures named { result.now.name ≡ name.now }
    ensures found { Contains (mades_view mades.now) (made_view result.now) }
{
    for i in 0..mades.len() {
        let made = &mades[i];
        if made.name.same(name) {
            return made;
        }
    }
    unreachable!()
}

/// The interface that the text states, which is that of the file of the module with this name.
fn state_import(alloc: Global, file: &Text, name: &Text, text: &[u8]) -> Result<Import, StepError>
    requires { file.now ≡ interface_file name.now }
    ensures step { (files : Files) → files (interface_file name.now) ≡ Some text.now →
        Gives import_of (ReadsImport files name.now) result }
    ensures short { IfOk result (λ i. IsShort (interface_view i.interface)) }
    ensures name { IfOk result (λ i. i.interface.module ≡ name.now) }
    ensures no_fault { IsNoFault result }
{
    interfaces_are_within();
    if text.len() > MOST_BYTES as usize {
        return match refused(alloc, file, Defect::File(FileDefect::TooLong)) {
            Ok(stop) => Err(StepError::Stopped(stop)),
            Err(_) => Err(StepError::Memory),
        };
    }
    match read_interface(alloc, name, text) {
        Ok(interface) => Ok(Import {
            interface,
            digest: digest(text),
        }),
        Err(error) => match bad_header(alloc, file, error) {
            Ok(stop) => Err(StepError::Stopped(stop)),
            Err(_) => Err(StepError::Memory),
        },
    }
}

/// The interface of a module that was made, with the digest of its text, as it is read from its
/// file once this was written.
fn import_made(alloc: Global, made: &Made) -> Result<Import, StepError>
    ensures step { (files : Files) →
        files (interface_file made.now.name) ≡ Some made.now.interface.items →
        Gives import_of (ReadsImport files made.now.name) result }
    ensures short { IfOk result (λ i. IsShort (interface_view i.interface)) }
    ensures name { IfOk result (λ i. i.interface.module ≡ made.now.name) }
    ensures no_fault { IsNoFault result }
{
    let file = with_suffix(alloc, &made.name, ".int")?;
    let import = state_import(alloc, &file, &made.name, &made.interface);
    drop(file);
    import
}

/// The interface of the module with this name, which is among those that were made. Where it is
/// remembered it is taken out there, and else it is read.
fn import_named(
    alloc: Global,
    mades: &[Made],
    name: &Text,
    remembered: &mut Remembered,
) -> Result<Import, StepError>
    requires among { Contains (map (λ m. m.name) (mades_view mades.now)) name.now }
    requires distinct { AreNamedApart (mades_view mades.now) }
    requires remembers { Remembers (mades_view mades.now) (remembered_imports remembered.old) }
    ensures step { (files : Files) → Gives import_of
        (ReadsImport (with_made (mades_view mades.now) files) name.now) result }
    ensures is { IfOk result (IsImportOf (mades_view mades.now) name.now) }
    ensures no_fault { IsNoFault result }
    ensures remembers { Remembers (mades_view mades.now) (remembered_imports remembered.new) }
{
    match remembered.take(name) {
        Some(import) => Ok(import),
        None => import_made(alloc, find(mades, name)),
    }
}

/// What is imported from the modules with these names, which are among those that were made: their
/// interfaces, as they are read from their files once these were written. Each is taken out of what
/// is remembered, or read.
pub(crate) fn imports_made(
    alloc: Global,
    mades: &[Made],
    names: &[Text],
    remembered: &mut Remembered,
) -> Result<Vec<Import>, StepError>
    requires among { AreAmong (mades_view mades.now) names.now }
    requires distinct { AreNamedApart (mades_view mades.now) }
    requires remembers { Remembers (mades_view mades.now) (remembered_imports remembered.old) }
    ensures step { (files : Files) → Gives (λ v. map import_of v.items)
        (ReadsImports (with_made (mades_view mades.now) files) names.now) result }
    ensures short { IfOk result (λ v. AllByRecursion IsShort (interfaces_of v.items)) }
    ensures names { IfOk result (λ v. map (λ it. it.name) (interfaces_of v.items) ≡ names.now) }
    ensures own { IfOk result (λ v. AllByRecursion (IsOwnImport (mades_view mades.now)) v.items) }
    ensures no_fault { IsNoFault result }
    ensures remembers { Remembers (mades_view mades.now) (remembered_imports remembered.new) }
{
    let mut imports = Vec::new(alloc);
    for i in 0..names.len() {
        let name = &names[i];
        match import_named(alloc, mades, name, remembered) {
            Ok(import) => match add_import(&mut imports, import) {
                Ok(()) => {}
                Err(_) => {
                    drop(imports);
                    return Err(StepError::Memory);
                }
            },
            Err(e) => {
                drop(imports);
                return Err(e);
            }
        }
    }
    Ok(imports)
}
