//! The steps that read the interface of a module.

ghost use Rattle.std.specs.Prelude.{◌≤◌, IfOk, length};
ghost use Rattle.sx_outside.specs.Told.{WhereTold};
ghost use Rattle.sx_steps.specs.Stop.{Gives, OnlyReads, IsNoFault};
ghost use Rattle.sx_headers.specs.ReadInterface.{held_interface, HasInterface, StatesParts};
ghost use Rattle.sx_headers.specs.ReadInterface.{ReadsInterface};
ghost use Rattle.sx_term.specs.Limits.{most_bytes};

use crate::header_stops::bad_header;
use std::alloc::Global;
use sx_interface::{Interface, read_interface};
use sx_outside::Shelf;
use sx_steps::{StepError, read_file};
use sx_term::{MOST_BYTES, Text};

/// The bytes of an interface's file, and the interface.
#[derive(Drop)]
pub struct InterfaceFile {
    pub bytes: Vec<u8>,
    pub interface: Interface,
}

/// The interface that the bytes of the file state.
fn state_interface(
    alloc: Global,
    file: &Text,
    name: &Text,
    bytes: Vec<u8>,
) -> Result<InterfaceFile, StepError>
    requires { length bytes.items ≤ most_bytes }
    ensures step { Gives held_interface (StatesParts file.now name.now bytes.items) result }
    ensures short { IfOk result (λ i. length i.bytes.items ≤ most_bytes) }
    ensures stated { IfOk result (λ i. HasInterface name.now i.bytes.items (held_interface i)) }
    ensures no_fault { IsNoFault result }
{
    match read_interface(alloc, name, &bytes) {
        Ok(interface) => Ok(InterfaceFile { bytes, interface }),
        Err(error) => {
            drop(bytes);
            match bad_header(alloc, file, error) {
                Ok(stop) => Err(StepError::Stopped(stop)),
                Err(_) => Err(StepError::Memory),
            }
        }
    }
}

/// The interface in the file, of the module with this name.
pub fn read_interface_file<S: Shelf>(
    alloc: Global,
    file: &Text,
    name: &Text,
    shelf: &mut S,
) -> Result<InterfaceFile, StepError>
    ensures step { WhereTold (S.content shelf.old)
        (λ files. Gives held_interface (ReadsInterface file.now name.now files) result) }
    ensures short { IfOk result (λ i. length i.bytes.items ≤ most_bytes) }
    ensures stated { IfOk result (λ i. HasInterface name.now i.bytes.items (held_interface i)) }
    ensures reads { OnlyReads (S.content shelf.old) (S.content shelf.new)
        (S.read_faults shelf.old) (S.read_faults shelf.new)
        (S.write_faults shelf.old) (S.write_faults shelf.new) result }
{
    match read_file(alloc, file, MOST_BYTES, shelf) {
        Ok(bytes) => state_interface(alloc, file, name, bytes),
        Err(e) => Err(e),
    }
}
