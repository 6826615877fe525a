//! The first reading of a file: what its lines declare.

ghost use Rattle.std.specs.Prelude.{◌≡◌, false, ◌≤◌, length, IfOk};
ghost use Rattle.sx_lines.specs.Left.{left};
ghost use Rattle.sx_outline.specs.Known.{kept_lines, Declares};
ghost use Rattle.sx_outline.specs.Tables.{TakesLine, TakesRow, declared_in};
ghost use Rattle.sx_outline.specs.Tables.{due_after, lines_after};
ghost use Rattle.sx_outline.specs.View.{known};

use crate::declared_rows::DeclaredRows;
use crate::due::Due;
use crate::kept::next_line_of_parts;
use crate::known::Known;
use crate::spelled_row::spelled_row;
use std::alloc::Global;
use sx_directives::{FileKind, Row};
use sx_lines::Rest;
use sx_term::NoMemory;

/// What is due after a row.
fn due_after(row: &Row) -> Due
    ensures { result ≡ due_after row.now }
{
    match row {
        Row::Rule(_) => Due::Nothing,
        Row::Plain(_) => Due::Body,
        _ => Due::Row,
    }
}

/// Adds what a row declares, and tells what is due after it.
fn take_row(rows: &mut DeclaredRows, row: Row) -> Result<Due, NoMemory>
    ensures { IfOk result (λ due. TakesRow (declared_in rows.old) row due
        (declared_in rows.new)) }
{
    let due = due_after(&row);
    rows.declare(row)?;
    Ok(due)
}

/// Adds what a line declares, and tells what is due after it.
fn take_line(
    alloc: Global,
    kind: FileKind,
    rows: &mut DeclaredRows,
    text: &[u8],
) -> Result<Due, NoMemory>
    ensures { IfOk result (λ due. TakesLine kind (declared_in rows.old) text.now due
        (declared_in rows.new)) }
{
    match spelled_row(alloc, kind, text)? {
        Some(row) => take_row(rows, row),
        None => Ok(Due::Row),
    }
}

/// What is left after the next kept line, if there is one.
fn skip_line<'a>(lines: Rest<'a>) -> Rest<'a>
    ensures skipped { kept_lines (left result) ≡ lines_after (kept_lines (left lines.entry)) }
    ensures shorter { length result.bytes.now ≤ length lines.entry.bytes.now }
{
    match next_line_of_parts(lines) {
        Ok((_line, more)) => more,
        Err(_) => lines,
    }
}

/// What the lines of a file declare, up to the first line of a rule, after what these rows declare.
fn read_rows(
    alloc: Global,
    kind: FileKind,
    rows: DeclaredRows,
    lines: Rest,
) -> Result<DeclaredRows, NoMemory>
    ensures { IfOk result (λ all. Declares kind false (declared_in rows)
        (kept_lines (left lines.entry)) (declared_in all)) }
{
    let mut found = rows;
    let mut left = lines;
    'lines: loop {
        match next_line_of_parts(left) {
            Ok((line, more)) => match take_line(alloc, kind, &mut found, line.text) {
                Ok(Due::Nothing) => return Ok(found),
                Ok(Due::Body) => left = skip_line(more),
                Ok(Due::Row) => left = more,
                Err(e) => {
                    drop(found);
                    return Err(e);
                }
            },
            Err(_) => return Ok(found),
        }
    }
}

/// What is known of a file: what its lines declare, up to the first line of a rule, after what
/// these rows declare.
pub(crate) fn read_known(
    alloc: Global,
    kind: FileKind,
    rows: DeclaredRows,
    lines: Rest,
) -> Result<Known, NoMemory>
    ensures { IfOk result (λ k. Declares kind false (declared_in rows)
        (kept_lines (left lines.entry)) (known k)) }
{
    Known::make(alloc, read_rows(alloc, kind, rows, lines)?)
}
