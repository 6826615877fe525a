//! The next extension is read.

ghost use Rattle.std.specs.Prelude.{◌≡◌, ◌≤◌, IfOk, length};
ghost use Rattle.sx_extension.specs.Fitting.{FitsAfter};
ghost use Rattle.sx_extension.specs.Grounds.{IsGroundBefore};
ghost use Rattle.sx_extension.specs.States.{IsExtensionIn};
ghost use Rattle.sx_steps.specs.Stop.{Gives, IsNoFault};
ghost use Rattle.sx_uses.specs.ExtensionFile.{extension_of, extension_file};
ghost use Rattle.sx_accepting.specs.ExtendedLanguages.{base_of, extended_data, ground_after};
ghost use Rattle.sx_accepting.specs.Extending.{read_data, ReadsAfter};
ghost use Rattle.sx_term.specs.Limits.{most_bytes};

use crate::extended::Extended;
use crate::extension_stops::bad_extension;
use crate::given::Given;
use sx_extension::{ReadExtension, read_extension};
use sx_steps::StepError;
use sx_term::Text;
use sx_uses::ExtensionFile;

/// The extension in the file with this name, which is read after the language and the extensions
/// so far.
pub(crate) fn read_next(
    given: &Given,
    so_far: &Extended,
    file: &ExtensionFile,
    name: &Text,
) -> Result<ReadExtension, StepError>
    requires name { name.now ≡ extension_file file.now.header.name }
    requires before { IsGroundBefore (ground_after given.now.language.now so_far.now) }
    requires short { length file.now.bytes.items ≤ most_bytes }
    ensures step { Gives read_data (ReadsAfter (base_of given.now.language.now)
        (extended_data given.now.language.now so_far.now) (extension_of file.now)) result }
    ensures stated { IfOk result
        (IsExtensionIn (ground_after given.now.language.now so_far.now) file.now.bytes.items) }
    ensures fits { IfOk result (FitsAfter (ground_after given.now.language.now so_far.now)) }
    ensures no_fault { IsNoFault result }
{
    let before = so_far.before(given.language);
    match read_extension(given.alloc, &before, &file.bytes) {
        Ok(read) => Ok(read),
        Err(error) => match bad_extension(given.alloc, name, error) {
            Ok(stop) => Err(StepError::Stopped(stop)),
            Err(_) => Err(StepError::Memory),
        },
    }
}
