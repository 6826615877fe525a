//! Reading the outline of an extension file.

ghost use Rattle.std.specs.Prelude.{length, IfOk};
ghost use Rattle.std.specs.Str.{IsUtf8};
ghost use Rattle.sx_lines.specs.Left.{left};
ghost use Rattle.sx_outline.specs.Headers.{header as header_of};
ghost use Rattle.sx_outline.specs.Known.{kept_lines};
ghost use Rattle.sx_outline.specs.ExtensionOutlined.{IsExtensionOutlined};
ghost use Rattle.sx_outline.specs.ExtensionOutlined.{extension_outline as outline_of};
ghost use Rattle.sx_outline.specs.ExtensionReading.{AreAfterRead};
ghost use Rattle.sx_outline.specs.ExtensionSized.{IsExtensionFit, IsExtensionSized};

use crate::declared_rows::DeclaredRows;
use crate::extension_finish::finish_extension;
use crate::extension_header::ExtensionHeader;
use crate::extension_outline::ExtensionOutline;
use crate::first_pass::read_known;
use crate::header_reading::read_header;
use crate::outline_error::OutlineError;
use crate::reader::Reader;
use crate::reading::read_lines;
use std::alloc::Global;
use sx_directives::{FileKind, VarLine};
use sx_grammar::SortLine;
use sx_lines::Rest;

/// What the lines after a header state, where the language has these sorts and stems.
fn read_after(
    alloc: Global,
    sorts: &[SortLine],
    vars: &[VarLine],
    header: ExtensionHeader,
    lines: Rest,
) -> Result<ExtensionOutline, OutlineError>
    requires { IsUtf8 lines.bytes.now }
    ensures { AreAfterRead sorts.now vars.now (header_of header)
        (kept_lines (left lines.entry)) result }
{
    let ExtensionHeader {
        name,
        language,
        uses,
    } = header;
    let rows = DeclaredRows::before(alloc, sorts, vars, uses)?;
    let known = read_known(alloc, FileKind::Extension, rows, lines)?;
    let reader = Reader::after_header(alloc, vars.len());
    match read_lines(alloc, FileKind::Extension, &known, &name, reader, lines) {
        Ok((reader, _number)) => finish_extension(known, name, language, reader),
        Err(e) => {
            drop(known);
            Err(e)
        }
    }
}

/// What an extension file states line by line, where its language has these sorts and these stems
/// of metavariables: its header, its own productions, its stems after those of the language, its
/// plain pairs, and the lines of its rules, with the bodies that `to` lines state. Whose the file
/// is and whether the language has the name that it states is left to the caller. It is refused
/// where the bytes are not UTF-8, and else at its first bad line: an own stem that the language has
/// is `Shape`, as is a `plain` line whose names are not those of the parts of a production of the
/// file with a plain sort. Lines past 4,294,967,294 have all the number 4,294,967,295. Productions
/// that a `u32` cannot number are out of memory.
pub fn read_extension_outline(
    alloc: Global,
    sorts: &[SortLine],
    vars: &[VarLine],
    bytes: &[u8],
) -> Result<ExtensionOutline, OutlineError>
    ensures answer { IsExtensionOutlined sorts.now vars.now bytes.now result }
    ensures sized { IfOk result (λ o. IsExtensionSized (length bytes.now) (length vars.now)
        (outline_of o)) }
    ensures fit { IfOk result (λ o. IsExtensionFit sorts.now vars.now (outline_of o)) }
{
    match std::str::from_utf8(bytes) {
        Ok(_) => match read_header(alloc, Rest::all(bytes)) {
            Ok((header, left)) => read_after(alloc, sorts, vars, header, left),
            Err(e) => Err(e),
        },
        Err(e) => Err(OutlineError::NotUtf8(e.valid_up_to())),
    }
}
