//! The end of the reading of an extension file.

ghost use Rattle.std.specs.Prelude.{◌≡◌, []};
ghost use Rattle.sx_outline.specs.Stages.{State, IsWhole, at_start};
ghost use Rattle.sx_outline.specs.Reading.{IsOutlineReader};
ghost use Rattle.sx_outline.specs.ExtensionReading.{IsExtensionEndRead};
ghost use Rattle.sx_outline.specs.View as view;

use crate::extension_header::ExtensionHeader;
use crate::extension_outline::ExtensionOutline;
use crate::known::Known;
use crate::open_line::open_line;
use crate::outline_error::{OutlineError, bad_line};
use crate::read_lines::ReadLines;
use crate::reader::Reader;
use sx_lines::Kind;
use sx_term::Text;

/// What comes of a reader where no line of the extension is left.
pub(crate) fn finish_extension(
    known: Known,
    name: Text,
    language: Text,
    reader: Reader,
) -> Result<ExtensionOutline, OutlineError>
    requires no_forms { (view.known known).forms ≡ [] }
    requires no_mains { (view.known known).mains ≡ [] }
    ensures { (s : State) → IsOutlineReader (view.known known) reader s → (s.stage ≡ at_start → ⊥) →
        (IsWhole s.stage → s.declared ≡ view.known known)
        → IsExtensionEndRead (view.known known).sorts
        (record { name = name; language = language; uses = (view.known known).uses }) s result }
{
    let Reader {
        stage,
        forms: _,
        vars: _,
        main: _,
        read,
    } = reader;
    let ReadLines { plains, rules } = read;
    let open = open_line(&stage);
    drop(stage);
    match open {
        None => {
            let (productions, vars, uses) = known.into_own();
            Ok(ExtensionOutline {
                header: ExtensionHeader {
                    name,
                    language,
                    uses,
                },
                productions,
                vars,
                plains,
                rules,
            })
        }
        Some(number) => {
            drop(known);
            drop(plains);
            drop(rules);
            Err(bad_line(number, Kind::Unfinished))
        }
    }
}
