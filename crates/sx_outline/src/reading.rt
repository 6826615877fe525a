//! Reading the lines of a file of either kind.

ghost use Rattle.std.specs.Prelude.{length};
ghost use Rattle.std.specs.Str.{IsUtf8};
ghost use Rattle.sx_lines.specs.Left.{left as left_of};
ghost use Rattle.sx_outline.specs.Known.{kept_lines};
ghost use Rattle.sx_outline.specs.Stages.{State};
ghost use Rattle.sx_outline.specs.Reading.{AreLinesRead, HasCountRoom, IsDeclaredAhead};
ghost use Rattle.sx_outline.specs.Reading.{IsOutlineReader};
ghost use Rattle.sx_outline.specs.View as view;

use crate::kept::next_line_of_parts;
use crate::known::Known;
use crate::next_line::read_next;
use crate::outline_error::OutlineError;
use crate::reader::Reader;
use std::alloc::Global;
use sx_directives::FileKind;
use sx_lines::Rest;
use sx_term::Text;

/// Reads the lines of a file of which so much is known: where the reader stands then, and the
/// number of a further line.
pub(crate) fn read_lines(
    alloc: Global,
    kind: FileKind,
    known: &Known,
    name: &Text,
    reader: Reader,
    lines: Rest,
) -> Result<(Reader, u32), OutlineError>
    requires room { HasCountRoom reader (length lines.bytes.now) }
    requires utf8 { IsUtf8 lines.bytes.now }
    ensures { (s : State) → IsOutlineReader (view.known known.now) reader s →
        IsDeclaredAhead kind s.stage s.declared (kept_lines (left_of lines.entry))
        (view.known known.now)
        → AreLinesRead kind (view.known known.now) name.now s
        (kept_lines (left_of lines.entry)) result }
{
    let mut reader = reader;
    let mut left = lines;
    'lines: loop {
        match next_line_of_parts(left) {
            Ok((line, more)) => {
                match read_next(alloc, kind, known, name, reader, line) {
                    Ok(next) => {
                        reader = next;
                        left = more;
                    }
                    Err(e) => return Err(e),
                }
            }
            Err(none) => return Ok((reader, none.number)),
        }
    }
}
