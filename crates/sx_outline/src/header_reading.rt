//! Reading the first lines of an extension file.

ghost use Rattle.std.specs.Prelude.{IfOk};
ghost use Rattle.std.specs.Str.{IsUtf8};
ghost use Rattle.sx_lines.specs.Left.{left};
ghost use Rattle.sx_outline.specs.Known.{kept_lines};
ghost use Rattle.sx_outline.specs.Headers.{IsHeaderRead};
ghost use Rattle.sx_outline.specs.HeaderReading.{AreUsesRead, IsAnyHeaderRead, IsLanguageRead};
ghost use Rattle.sx_outline.specs.HeaderReading.{IsNamedHeaderRead};

use crate::extension_header::ExtensionHeader;
use crate::head::first_line;
use crate::header_lines::{extension_line, language_line, use_line};
use crate::header_uses::HeaderUses;
use crate::kept::next_line_of_parts;
use crate::outline_error::{OutlineError, bad_line};
use std::alloc::Global;
use sx_directives::FileKind;
use sx_lines::{Kind, Rest};
use sx_term::Text;

/// The names that the next lines use, and what is left from the first line of another word on.
fn read_uses<'a>(alloc: Global, rest: Rest<'a>) -> Result<(Vec<Text>, Rest<'a>), OutlineError>
    ensures read { AreUsesRead (kept_lines (left rest.entry)) result }
    ensures utf8 { IsUtf8 rest.entry.bytes.now → IfOk result (λ x. IsUtf8 x.1.bytes.now) }
{
    let mut uses = HeaderUses::new(alloc);
    let mut left = rest;
    'lines: loop {
        match next_line_of_parts(left) {
            Ok((line, more)) => match use_line(alloc, &mut uses, line.number, line.text) {
                Ok(true) => left = more,
                Ok(false) => return Ok((uses.into_names(), left)),
                Err(e) => {
                    drop(uses);
                    return Err(e);
                }
            },
            Err(_) => return Ok((uses.into_names(), left)),
        }
    }
}

/// The header with this name whose other lines are the first of these, and what is left after it.
fn read_language<'a>(
    alloc: Global,
    name: Text,
    lines: Rest<'a>,
) -> Result<(ExtensionHeader, Rest<'a>), OutlineError>
    ensures read { IsLanguageRead name (kept_lines (left lines.entry)) result }
    ensures utf8 { IsUtf8 lines.entry.bytes.now → IfOk result (λ x. IsUtf8 x.1.bytes.now) }
{
    match next_line_of_parts(lines) {
        Ok((line, more)) => {
            let language = language_line(alloc, line.number, line.text)?;
            match read_uses(alloc, more) {
                Ok((uses, left)) => Ok((
                    ExtensionHeader {
                        name,
                        language,
                        uses,
                    },
                    left,
                )),
                Err(e) => {
                    drop(language);
                    Err(e)
                }
            }
        }
        Err(none) => Err(bad_line(none.number, Kind::Head)),
    }
}

/// The header that the lines of the extension with this name state, and what is left after it.
fn read_named<'a>(
    alloc: Global,
    name: &Text,
    lines: Rest<'a>,
) -> Result<(ExtensionHeader, Rest<'a>), OutlineError>
    ensures { IsNamedHeaderRead name.now (kept_lines (left lines.entry)) result }
{
    match next_line_of_parts(lines) {
        Ok((line, more)) => {
            first_line(alloc, FileKind::Extension, name, line.number, line.text)?;
            read_language(alloc, name.copy(alloc)?, more)
        }
        Err(none) => Err(bad_line(none.number, Kind::Head)),
    }
}

/// The header that the lines of an extension with whatever name state, and what is left after it.
pub(crate) fn read_header<'a>(
    alloc: Global,
    lines: Rest<'a>,
) -> Result<(ExtensionHeader, Rest<'a>), OutlineError>
    ensures read { IsAnyHeaderRead (kept_lines (left lines.entry)) result }
    ensures utf8 { IsUtf8 lines.entry.bytes.now → IfOk result (λ x. IsUtf8 x.1.bytes.now) }
{
    match next_line_of_parts(lines) {
        Ok((line, more)) => {
            let name = extension_line(alloc, line.number, line.text)?;
            read_language(alloc, name, more)
        }
        Err(none) => Err(bad_line(none.number, Kind::Head)),
    }
}

/// What the first lines of the file of the extension with this name state: its language and the
/// extensions that it uses. The header ends before the first line after the second whose first part
/// is not `use`. It is refused where the bytes are not UTF-8, and else at its first bad line:
/// `Head` for a first line that is not `extension NAME`, for a second that is no `language` line,
/// and at 1 more than the number of lines where one of the two is missing; `Shape` for a `use` line
/// that is not as stated or names again what one before it names. Lines past 4,294,967,294 have all
/// the number 4,294,967,295.
pub fn read_extension_header(
    alloc: Global,
    name: &Text,
    bytes: &[u8],
) -> Result<ExtensionHeader, OutlineError>
    ensures { IsHeaderRead name.now bytes.now result }
{
    match std::str::from_utf8(bytes) {
        Ok(_) => match read_named(alloc, name, Rest::all(bytes)) {
            Ok((header, _left)) => Ok(header),
            Err(e) => Err(e),
        },
        Err(e) => Err(OutlineError::NotUtf8(e.valid_up_to())),
    }
}
