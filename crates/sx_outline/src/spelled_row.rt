//! The row that a line spells.

ghost use Rattle.std.specs.Prelude.{MatchOption, IfOk};
ghost use Rattle.sx_directives.specs.Rows.{IsRow};
ghost use Rattle.sx_directives.specs.declared.row.Row.{Row as RowOf};

use std::alloc::Global;
use sx_directives::{FileKind, Row, RowError, read_row};
use sx_term::NoMemory;

/// The row that the line spells in a file of this kind, or none where it spells none.
pub(crate) fn spelled_row(
    alloc: Global,
    kind: FileKind,
    text: &[u8],
) -> Result<Option<Row>, NoMemory>
    ensures { IfOk result (λ o. MatchOption o ((row : RowOf) → IsRow kind text.now row → ⊥)
        (λ row. IsRow kind text.now row)) }
{
    match read_row(alloc, kind, text) {
        Ok(read) => Ok(read),
        Err(RowError::Shape) => Ok(None),
        Err(RowError::Memory) => Err(NoMemory::Memory),
    }
}
