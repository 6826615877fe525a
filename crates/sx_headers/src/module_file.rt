//! The steps that read a module's header.

ghost use Rattle.std.specs.Prelude.{◌≤◌, IfOk, length};
ghost use Rattle.sx_outside.specs.Told.{WhereTold};
ghost use Rattle.sx_steps.specs.Stop.{Gives, OnlyReads, IsNoFault};
ghost use Rattle.sx_headers.specs.ReadModule.{module_of, HasHeader, StatesModule, ReadsModule};
ghost use Rattle.sx_term.specs.Limits.{most_bytes};

use crate::header_stops::bad_header;
use std::alloc::Global;
use sx_interface::{Header, read_header};
use sx_outside::Shelf;
use sx_steps::{StepError, read_file};
use sx_term::{MOST_BYTES, Text};

/// The bytes of a module's file, or of its base file, and their header.
#[derive(Drop)]
pub struct ModuleFile {
    pub bytes: Vec<u8>,
    pub header: Header,
}

/// The header that the bytes of the file state.
fn state_module(
    alloc: Global,
    file: &Text,
    name: &Text,
    bytes: Vec<u8>,
) -> Result<ModuleFile, StepError>
    requires { length bytes.items ≤ most_bytes }
    ensures step { Gives module_of (StatesModule file.now name.now bytes.items) result }
    ensures short { IfOk result (λ m. length m.bytes.items ≤ most_bytes) }
    ensures headed { IfOk result (λ m. HasHeader name.now m.bytes.items (module_of m)) }
    ensures no_fault { IsNoFault result }
{
    match read_header(alloc, name, &bytes) {
        Ok(header) => Ok(ModuleFile { bytes, header }),
        Err(error) => {
            drop(bytes);
            match bad_header(alloc, file, error) {
                Ok(stop) => Err(StepError::Stopped(stop)),
                Err(_) => Err(StepError::Memory),
            }
        }
    }
}

/// The header in the file, of the module with this name.
pub fn read_module<S: Shelf>(
    alloc: Global,
    file: &Text,
    name: &Text,
    shelf: &mut S,
) -> Result<ModuleFile, StepError>
    ensures step { WhereTold (S.content shelf.old)
        (λ files. Gives module_of (ReadsModule file.now name.now files) result) }
    ensures short { IfOk result (λ m. length m.bytes.items ≤ most_bytes) }
    ensures headed { IfOk result (λ m. HasHeader name.now m.bytes.items (module_of m)) }
    ensures reads { OnlyReads (S.content shelf.old) (S.content shelf.new)
        (S.read_faults shelf.old) (S.read_faults shelf.new)
        (S.write_faults shelf.old) (S.write_faults shelf.new) result }
{
    match read_file(alloc, file, MOST_BYTES, shelf) {
        Ok(bytes) => state_module(alloc, file, name, bytes),
        Err(e) => Err(e),
    }
}
