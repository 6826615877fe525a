//! The steps that read the file of an extension as far as its header.

ghost use Rattle.std.specs.Prelude.{◌≡◌, ◌≤◌, IfOk, Some, length};
ghost use Rattle.sx_outside.specs.Told.{WhereTold};
ghost use Rattle.sx_steps.specs.Stop.{Gives, OnlyReads, IsNoFault};
ghost use Rattle.sx_uses.specs.ExtensionFile.{extension_of, extension_file, IsHeaderStated};
ghost use Rattle.sx_uses.specs.ReadExtension.{extension_header_stop, StatesExtension, ReadsFile};
ghost use Rattle.sx_term.specs.Limits.{most_bytes};

use crate::extension_file::ExtensionFile;
use std::alloc::Global;
use sx_outline::{OutlineError, read_extension_header};
use sx_outside::Shelf;
use sx_steps::{StepError, Stop, bad_line, read_file, refused, with_suffix};
use sx_term::{MOST_BYTES, NoMemory, Text};
use sx_words::{Defect, FileDefect};

/// The refusal of bytes that state no header.
fn bad_header(alloc: Global, file: &Text, error: OutlineError) -> Result<Stop, NoMemory>
    ensures { IfOk result (λ stop. extension_header_stop file.now error ≡ Some stop) }
{
    match error {
        OutlineError::Memory => Err(NoMemory::Memory),
        OutlineError::NotUtf8(before) => refused(
            alloc,
            file,
            Defect::File(FileDefect::NotUtf8(before as u64)),
        ),
        OutlineError::Notation { line, kind } => bad_line(alloc, file, line, kind),
    }
}

/// The header that the bytes of the file state.
fn state_extension(
    alloc: Global,
    file: &Text,
    name: &Text,
    bytes: Vec<u8>,
) -> Result<ExtensionFile, StepError>
    requires file { file.now ≡ extension_file name.now }
    requires short { length bytes.items ≤ most_bytes }
    ensures step { Gives extension_of (StatesExtension name.now bytes.items) result }
    ensures named { IfOk result (λ x. x.header.name ≡ name.now) }
    ensures stated { IfOk result (λ x. IsHeaderStated (extension_of x)) }
    ensures no_fault { IsNoFault result }
{
    match read_extension_header(alloc, name, &bytes) {
        Ok(header) => Ok(ExtensionFile { bytes, header }),
        Err(error) => match bad_header(alloc, file, error) {
            Ok(stop) => Err(StepError::Stopped(stop)),
            Err(_) => Err(StepError::Memory),
        },
    }
}

/// The file `NAME.ext` of the extension with this name, as far as its header. It stops where the
/// file is absent, has more than 262,144 bytes or cannot be read, where its bytes are not UTF-8,
/// and else at the first line of the header that is not as defined.
pub fn read_extension_file<S: Shelf>(
    alloc: Global,
    name: &Text,
    shelf: &mut S,
) -> Result<ExtensionFile, StepError>
    ensures step { WhereTold (S.content shelf.old)
        (λ files. Gives extension_of (ReadsFile files name.now) result) }
    ensures named { IfOk result (λ x. x.header.name ≡ name.now) }
    ensures stated { IfOk result (λ x. IsHeaderStated (extension_of x)) }
    ensures reads { OnlyReads (S.content shelf.old) (S.content shelf.new)
        (S.read_faults shelf.old) (S.read_faults shelf.new)
        (S.write_faults shelf.old) (S.write_faults shelf.new) result }
{
    let file = with_suffix(alloc, name, ".ext")?;
    match read_file(alloc, &file, MOST_BYTES, shelf) {
        Ok(bytes) => state_extension(alloc, &file, name, bytes),
        Err(e) => Err(e),
    }
}
