//! Reading the outline of a language file.

ghost use Rattle.std.specs.Prelude.{false, length, IfOk};
ghost use Rattle.std.specs.Str.{IsUtf8};
ghost use Rattle.sx_lines.specs.Lines.{lines_from};
ghost use Rattle.sx_directives.specs.declared.file_kind.FileKind.TheVariants as files;
ghost use Rattle.sx_outline.specs.Declarations.{nothing};
ghost use Rattle.sx_outline.specs.Known.{kept_lines, Declares};
ghost use Rattle.sx_outline.specs.Outlined.{outline as outline_of, IsOutlined};
ghost use Rattle.sx_outline.specs.Reading.{IsOutlineRead};
ghost use Rattle.sx_outline.specs.Sized.{IsSized, IsFitOutline};
ghost use Rattle.sx_outline.specs.View as view;

use crate::declared_rows::DeclaredRows;
use crate::finish::finish;
use crate::first_pass::read_known;
use crate::known::Known;
use crate::outline::Outline;
use crate::outline_error::OutlineError;
use crate::reader::Reader;
use crate::reading::read_lines;
use std::alloc::Global;
use sx_directives::FileKind;
use sx_lines::Rest;
use sx_term::Text;

/// What the lines of a language file state of which so much is known.
fn read_language(
    alloc: Global,
    known: Known,
    name: &Text,
    bytes: &[u8],
) -> Result<Outline, OutlineError>
    requires declares { Declares files.Language false nothing (kept_lines (lines_from 1 bytes.now))
        (view.known known) }
    requires utf8 { IsUtf8 bytes.now }
    ensures { IsOutlineRead (view.known known) name.now
        (kept_lines (lines_from 1 bytes.now)) result }
{
    let reader = Reader::new(alloc);
    match read_lines(
        alloc,
        FileKind::Language,
        &known,
        name,
        reader,
        Rest::all(bytes),
    ) {
        Ok((reader, number)) => finish(known, reader, number),
        Err(e) => {
            drop(known);
            Err(e)
        }
    }
}

/// What a file of the language with this name states line by line: the parts of its grammar, its
/// stems of metavariables, its forms, its main form, and the lines of its rules, which have no
/// bodies. It is refused where the bytes are not UTF-8, and else at its first bad line. Lines past
/// 4,294,967,294 have all the number 4,294,967,295. Forms or productions that a `u32` cannot number
/// are out of memory.
pub fn read_outline(alloc: Global, name: &Text, bytes: &[u8]) -> Result<Outline, OutlineError>
    ensures answer { IsOutlined name.now bytes.now result }
    ensures sized { IfOk result (λ o. IsSized (length bytes.now) (outline_of o)) }
    ensures fit { IfOk result (λ o. IsFitOutline (outline_of o)) }
{
    match std::str::from_utf8(bytes) {
        Ok(_) => {
            let rows = DeclaredRows::new(alloc);
            let known = read_known(alloc, FileKind::Language, rows, Rest::all(bytes))?;
            read_language(alloc, known, name, bytes)
        }
        Err(e) => Err(OutlineError::NotUtf8(e.valid_up_to())),
    }
}
