//! The rows of an interface that are read as terms.

ghost use Rattle.std.specs.Prelude.{◌≡◌};
ghost use Rattle.sx_interface.specs.InterfaceView.{interface_view};
ghost use Rattle.sx_environment.specs.Seen.{row_line, import_row_text};
ghost use Rattle.sx_environment.specs.SeenFrom.{IsShort};

use sx_interface::Interface;
use sx_term::Text;

/// The line of the signature in the file of an interface without uses and imports.
const SIGNATURE_LINE: u64 = 6;

/// A row of an interface that is read as a term.
#[derive(Clone, Copy)]
pub(crate) enum Row {
    /// The signature in the language's own syntax.
    Signature,
    /// The signature as its author wrote it.
    Stated,
}

impl Row {
    /// The text of the row.
    pub(crate) fn text(self, interface: &Interface) -> &Text
        ensures { result.now ≡ import_row_text (interface_view interface.now) self }
    {
        match self {
            Row::Signature => &interface.signature,
            Row::Stated => &interface.stated,
        }
    }

    /// The line of the row in the interface's file, from 1.
    pub(crate) fn line(self, interface: &Interface) -> u64
        requires { IsShort (interface_view interface.now) }
        ensures { result ≡ row_line (interface_view interface.now) self }
    {
        let marks = interface.uses.len() as u64 + interface.imports.len() as u64;
        match self {
            Row::Signature => SIGNATURE_LINE + marks,
            Row::Stated => SIGNATURE_LINE + 1 + marks,
        }
    }
}
