//! The step that reads the modules of a closure.

ghost use Rattle.std.specs.Prelude.{◌≡◌, ◌∷◌, [], IfOk, Ok};
ghost use Rattle.std.specs.List.{AllByRecursion};
ghost use Rattle.sx_outside.specs.Told.{WhereTold};
ghost use Rattle.sx_steps.specs.Stop.{Gives, OnlyReads};
ghost use Rattle.sx_headers.specs.ReadModule.{module_of};
ghost use Rattle.sx_closure.specs.Closures.{IsClosure};
ghost use Rattle.sx_headers.specs.ModuleFiles.{module_file};
ghost use Rattle.sx_closure.specs.ReadImport.{ReadsNamed};
ghost use Rattle.sx_closure.specs.ReadModules.{IsModuleStated, ReachesModules, ReadsModules};
ghost use Rattle.sx_closure.specs.ReadModules.{modules_of};

use crate::module_kind::ModuleKind;
use crate::named_module::read_named;
use std::alloc::Global;
use sx_headers::ModuleFile;
use sx_outside::Shelf;
use sx_steps::{StepError, with_suffix};
use sx_term::{NoMemory, Text};
use sx_walking::read_reached;

/// From where modules are sought, which language they have, and the file of which a cycle is told.
#[derive(Drop)]
struct Sought {
    roots: Vec<Text>,
    language: Text,
    file: Text,
}

/// From where modules are sought for the closure of this one, whose name is given.
fn sought_by(alloc: Global, name: &Text, root: &ModuleFile) -> Result<Sought, NoMemory>
    ensures roots { IfOk result (λ sought. sought.roots.items ≡ name.now ∷ []) }
    ensures language { IfOk result (λ sought. sought.language ≡ root.now.header.language) }
    ensures file { IfOk result (λ sought. sought.file ≡ module_file name.now) }
{
    let mut roots = Vec::new(alloc);
    roots.push(name.copy(alloc)?)?;
    let language = root.header.language.copy(alloc)?;
    let file = with_suffix(alloc, name, ".mod")?;
    Ok(Sought {
        roots,
        language,
        file,
    })
}

/// The modules that are reached from the one that is held.
fn read_sought<S: Shelf>(
    alloc: Global,
    root: ModuleFile,
    sought: Sought,
    shelf: &mut S,
) -> Result<Vec<ModuleFile>, StepError>
    requires roots { sought.roots.items ≡ root.header.name ∷ [] }
    requires file { sought.file ≡ module_file root.header.name }
    requires stated { IsModuleStated (module_of root) }
    requires held { WhereTold (S.content shelf.now)
        (λ files. ReadsNamed files root.header.name (Ok (module_of root))) }
    ensures step { WhereTold (S.content shelf.old) (λ files. Gives modules_of
        (ReachesModules sought.language root.header.name files) result) }
    ensures stated { IfOk result (λ ms. AllByRecursion IsModuleStated (modules_of ms)) }
    ensures closure { IfOk result (λ ms. IsClosure root.header.name (modules_of ms)) }
    ensures reads { OnlyReads (S.content shelf.old) (S.content shelf.new)
        (S.read_faults shelf.old) (S.read_faults shelf.new)
        (S.write_faults shelf.old) (S.write_faults shelf.new) result }
{
    let Sought {
        roots,
        language,
        file,
    } = sought;
    let kind = ModuleKind {
        language: &language,
    };
    let modules = read_reached(alloc, &kind, &file, Some(root), roots, shelf);
    drop(file);
    drop(language);
    modules
}

/// The modules of the closure of the one that is held.
fn read_from<S: Shelf>(
    alloc: Global,
    root: ModuleFile,
    shelf: &mut S,
) -> Result<Vec<ModuleFile>, StepError>
    requires stated { IsModuleStated (module_of root) }
    requires held { WhereTold (S.content shelf.now)
        (λ files. ReadsNamed files root.header.name (Ok (module_of root))) }
    ensures step { WhereTold (S.content shelf.old) (λ files. Gives modules_of
        (ReachesModules root.header.language root.header.name files) result) }
    ensures stated { IfOk result (λ ms. AllByRecursion IsModuleStated (modules_of ms)) }
    ensures closure { IfOk result (λ ms. IsClosure root.header.name (modules_of ms)) }
    ensures reads { OnlyReads (S.content shelf.old) (S.content shelf.new)
        (S.read_faults shelf.old) (S.read_faults shelf.new)
        (S.write_faults shelf.old) (S.write_faults shelf.new) result }
{
    match sought_by(alloc, &root.header.name, &root) {
        Ok(sought) => read_sought(alloc, root, sought, shelf),
        Err(_) => {
            drop(root);
            Err(StepError::Memory)
        }
    }
}

/// The modules of the closure of the one with this name: those that are reached from it by `import`
/// lines, each once and after those that it imports, in the order in which a depth-first walk
/// leaves them, so that the one with this name comes last; or the first refusal that the walk comes
/// to. A module is read when the walk comes to it: it stops where its file gives no header, as
/// `read_named` does, and where its language is not that of its importer, so not that of the module
/// with this name. A name that stands on the present path is a cycle, and the 257th module is one
/// too many: these two are told of the file of the module with this name.
pub fn read_modules<S: Shelf>(
    alloc: Global,
    name: &Text,
    shelf: &mut S,
) -> Result<Vec<ModuleFile>, StepError>
    ensures step { WhereTold (S.content shelf.old)
        (λ files. Gives modules_of (ReadsModules name.now files) result) }
    ensures stated { IfOk result (λ ms. AllByRecursion IsModuleStated (modules_of ms)) }
    ensures closure { IfOk result (λ ms. IsClosure name.now (modules_of ms)) }
    ensures reads { OnlyReads (S.content shelf.old) (S.content shelf.new)
        (S.read_faults shelf.old) (S.read_faults shelf.new)
        (S.write_faults shelf.old) (S.write_faults shelf.new) result }
{
    match read_named(alloc, name, shelf) {
        Ok(root) => read_from(alloc, root, shelf),
        Err(e) => Err(e),
    }
}
