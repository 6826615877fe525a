//! The extensions in use, as an interface names them.

ghost use Rattle.std.specs.Prelude.{◌≡◌, IfOk, map};
ghost use Rattle.sx_interface.specs.InterfaceView.{marks_view};
ghost use Rattle.sx_uses.specs.ExtensionFile.{extension_of};
ghost use Rattle.sx_compiling.specs.Given.{use_mark};

use std::alloc::Global;
use sx_interface::{ImportMark, digest};
use sx_term::NoMemory;
use sx_uses::ExtensionFile;

/// The name of each of the extensions, with the digest of its file.
pub(crate) fn use_marks(alloc: Global, files: &[ExtensionFile]) -> Result<Vec<ImportMark>, NoMemory>
    ensures { IfOk result (λ marks.
        marks_view marks.items ≡ map use_mark (map extension_of files.now)) }
{
    let mut marks = Vec::new(alloc);
    for file in files {
        marks.push(ImportMark {
            name: file.header.name.copy(alloc)?,
            digest: digest(&file.bytes),
        })?;
    }
    Ok(marks)
}
