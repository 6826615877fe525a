//! The step that reads a module's header from the file of its name.

ghost use Rattle.std.specs.Prelude.{◌≡◌, IfOk};
ghost use Rattle.sx_outside.specs.Told.{WhereTold};
ghost use Rattle.sx_steps.specs.Stop.{Gives, OnlyReads};
ghost use Rattle.sx_headers.specs.ReadModule.{module_of};
ghost use Rattle.sx_closure.specs.ReadImport.{ReadsNamed};
ghost use Rattle.sx_closure.specs.ReadModules.{IsModuleStated};

use std::alloc::Global;
use sx_headers::{ModuleFile, read_module};
use sx_outside::Shelf;
use sx_steps::{StepError, with_suffix};
use sx_term::Text;

/// The header in the file `NAME.mod` of the module with this name. It stops where the file is
/// absent, has more than 262,144 bytes or cannot be read, where its bytes are not UTF-8, and else
/// at the first line of the header that is not as defined.
pub fn read_named<S: Shelf>(
    alloc: Global,
    name: &Text,
    shelf: &mut S,
) -> Result<ModuleFile, StepError>
    ensures step { WhereTold (S.content shelf.old)
        (λ files. Gives module_of (ReadsNamed files name.now) result) }
    ensures named { IfOk result (λ m. m.header.name ≡ name.now) }
    ensures stated { IfOk result (λ m. IsModuleStated (module_of m)) }
    ensures reads { OnlyReads (S.content shelf.old) (S.content shelf.new)
        (S.read_faults shelf.old) (S.read_faults shelf.new)
        (S.write_faults shelf.old) (S.write_faults shelf.new) result }
{
    let file = with_suffix(alloc, name, ".mod")?;
    read_module(alloc, &file, name, shelf)
}
