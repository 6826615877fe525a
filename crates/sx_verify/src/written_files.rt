//! The steps that read a module's interface and its base file.

ghost use Rattle.std.specs.Prelude.{◌≤◌, IfOk, length};
ghost use Rattle.sx_interface.specs.InterfaceView.{interface_view};
ghost use Rattle.sx_interface.specs.StatedHeader.{ArePlainNames};
ghost use Rattle.sx_outside.specs.Told.{WhereTold};
ghost use Rattle.sx_steps.specs.Stop.{Gives, OnlyReads, IsNoFault};
ghost use Rattle.sx_headers.specs.ReadInterface.{held_interface};
ghost use Rattle.sx_headers.specs.ReadModule.{module_of};
ghost use Rattle.sx_verify.specs.AskedFiles.{HasFiles};
ghost use Rattle.sx_verify.specs.BaseFits.{IsBaseOf};
ghost use Rattle.sx_verify.specs.VerifyModule as spec;
ghost use Rattle.sx_verify.specs.WrittenFiles.{AreWrittenFiles, written_of};
ghost use Rattle.sx_term.specs.Limits.{most_bytes};

use crate::asked::Asked;
use crate::base_fits::fit_beside;
use sx_headers::{InterfaceFile, ModuleFile, read_interface_file, read_module};
use sx_importing::keep_digest;
use sx_interface::{Interface, digest};
use sx_outside::Shelf;
use sx_steps::StepError;
use sx_words::Kept;

/// The interface of a module, and its base file.
#[derive(Drop)]
pub(crate) struct WrittenFiles {
    pub(crate) interface: Interface,
    pub(crate) base: ModuleFile,
}

/// The base file fits the interface, and has the digest that this keeps.
fn compare_base(asked: &Asked, interface: &Interface, base: &ModuleFile) -> Result<(), StepError>
    requires files { HasFiles asked.now }
    requires short { length base.now.bytes.items ≤ most_bytes }
    ensures step { Gives
        (λ done. spec.both_written (interface_view interface.now) (module_of base.now))
        (spec.FitsBase asked.now.name.now (interface_view interface.now) (module_of base.now))
        result }
    ensures fits { IfOk result
        (λ _. IsBaseOf (interface_view interface.now) (module_of base.now).header) }
    ensures no_fault { IsNoFault result }
{
    match fit_beside(asked.alloc, asked.base, interface, base) {
        Ok(()) => {
            let found = digest(&base.bytes);
            let kept = &interface.base_digest;
            keep_digest(asked.alloc, asked.interface, Kept::BaseDigest, kept, &found)
        }
        Err(e) => Err(e),
    }
}

/// The base file that was read, beside the interface.
fn beside(asked: &Asked, interface: Interface, base: ModuleFile) -> Result<WrittenFiles, StepError>
    requires files { HasFiles asked.now }
    requires short { length base.bytes.items ≤ most_bytes }
    requires names { ArePlainNames base.header.imports.items }
    ensures step { Gives written_of
        (spec.FitsBase asked.now.name.now (interface_view interface) (module_of base)) result }
    ensures good { IfOk result AreWrittenFiles }
    ensures no_fault { IsNoFault result }
{
    match compare_base(asked, &interface, &base) {
        Ok(()) => Ok(WrittenFiles { interface, base }),
        Err(e) => {
            drop(base);
            drop(interface);
            Err(e)
        }
    }
}

/// The base file, beside the interface that was read.
fn read_base<S: Shelf>(
    asked: &Asked,
    held: InterfaceFile,
    shelf: &mut S,
) -> Result<WrittenFiles, StepError>
    requires { HasFiles asked.now }
    ensures step { WhereTold (S.content shelf.old)
        (λ files. Gives written_of (spec.ReadsBase asked.now.name.now files (held_interface held))
        result) }
    ensures good { IfOk result AreWrittenFiles }
    ensures reads { OnlyReads (S.content shelf.old) (S.content shelf.new)
        (S.read_faults shelf.old) (S.read_faults shelf.new)
        (S.write_faults shelf.old) (S.write_faults shelf.new) result }
{
    let InterfaceFile { bytes, interface } = held;
    drop(bytes);
    match read_module(asked.alloc, asked.base, asked.name, shelf) {
        Ok(base) => beside(asked, interface, base),
        Err(e) => {
            drop(interface);
            Err(e)
        }
    }
}

/// The interface and the base file, which fits it.
pub(crate) fn read_written<S: Shelf>(
    asked: &Asked,
    shelf: &mut S,
) -> Result<WrittenFiles, StepError>
    requires { HasFiles asked.now }
    ensures step { WhereTold (S.content shelf.old)
        (λ files. Gives written_of (spec.ReadsWritten asked.now.name.now files) result) }
    ensures good { IfOk result AreWrittenFiles }
    ensures reads { OnlyReads (S.content shelf.old) (S.content shelf.new)
        (S.read_faults shelf.old) (S.read_faults shelf.new)
        (S.write_faults shelf.old) (S.write_faults shelf.new) result }
{
    match read_interface_file(asked.alloc, asked.interface, asked.name, shelf) {
        Ok(held) => read_base(asked, held, shelf),
        Err(e) => Err(e),
    }
}
