//! The first line of a file.

ghost use Rattle.std.specs.Prelude.{◌≡◌, ◌↔◌, IsTrue, MatchResult};
ghost use Rattle.sx_directives.specs.Rows.{IsRow};
ghost use Rattle.sx_outline.specs.Stages.{head_row};
ghost use Rattle.sx_outline.specs.Reading.{IsHeadRefused};

use crate::outline_error::{OutlineError, bad_line};
use crate::spelled_row::spelled_row;
use std::alloc::Global;
use sx_directives::{FileKind, Row};
use sx_lines::Kind;
use sx_term::Text;

/// Whether the row is the first one of the file of this kind with this name.
fn is_head(kind: FileKind, name: &Text, row: &Row) -> bool
    ensures { IsTrue result ↔ (row.now ≡ head_row kind name.now) }
{
    match kind {
        FileKind::Language => match row {
            Row::Language(given) => given.same(name),
            _ => false,
        },
        FileKind::Extension => match row {
            Row::Extension(given) => given.same(name),
            _ => false,
        },
    }
}

/// Reads the first line of the file of this kind with this name.
pub(crate) fn first_line(
    alloc: Global,
    kind: FileKind,
    name: &Text,
    number: u32,
    text: &[u8],
) -> Result<(), OutlineError>
    ensures { MatchResult result (λ _. IsRow kind text.now (head_row kind name.now))
        (λ e. IsHeadRefused kind name.now number text.now e) }
{
    match spelled_row(alloc, kind, text)? {
        Some(row) => {
            let is_head = is_head(kind, name, &row);
            drop(row);
            if is_head {
                return Ok(());
            }
            Err(bad_line(number, Kind::Head))
        }
        None => Err(bad_line(number, Kind::Head)),
    }
}
