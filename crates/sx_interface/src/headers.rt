//! Headers of module files.

ghost use Rattle.std.specs.Prelude.{◌≡◌, [], ◌≤◌, length, IfOk, Ok, IfErr, IfSome, true, false};
ghost use Rattle.sx_lines.specs.FirstBad.{IsFirstBad};
ghost use Rattle.sx_interface.specs.Headers.{HeaderParts};
ghost use Rattle.sx_interface.specs.StatedHeader.{StatesHeader};
ghost use Rattle.sx_lines.specs.Lines.{lines_from};
ghost use Rattle.sx_lines.specs.Words.{is_name};
ghost use Rattle.sx_lines.specs.Reading.{GivesRead, kept};
ghost use Rattle.sx_interface.specs.Headers as spec;
ghost use Rattle.sx_interface.specs.HeaderView.{parts_view, rows_view, header_view};
ghost use Rattle.sx_interface.specs.Reading.{RefusesHeader, RefusesText, IsText, error_line};

use crate::error::HeaderError;
use crate::rows::{end_line, module_line, name_row, name_rows};
use crate::texts::name_text;
use std::alloc::Global;
use sx_lines::Rest;
use sx_term::Text;

/// The header of a module file.
#[derive(Drop)]
pub struct Header {
    /// The module's name.
    pub name: Text,
    /// The name of its language.
    pub language: Text,
    /// The names of the extensions that it uses, in order and distinct.
    pub uses: Vec<Text>,
    /// The names of the modules that it imports, in order and distinct.
    pub imports: Vec<Text>,
    /// How many bytes stand before the body.
    pub body: usize,
    /// The number of the body's first line, from 1.
    pub line: u32,
}

/// What stands in a header, and the body.
#[derive(Drop)]
struct Parts<'a> {
    language: Text,
    uses: Vec<Text>,
    imports: Vec<Text>,
    body: Rest<'a>,
}

/// The language and the body that the lines of a module's file state, with the names in the `use`
/// and `import` lines.
fn read_rows<'a>(
    alloc: Global,
    name: &Text,
    bytes: &'a [u8],
    uses: &mut Vec<Text>,
    imports: &mut Vec<Text>,
) -> Result<(&'a [u8], Rest<'a>), HeaderError>
    requires uses { uses.old.items ≡ [] }
    requires imports { imports.old.items ≡ [] }
    ensures rows { GivesRead (λ x. rows_view name.now x.0.now uses.new.items imports.new.items
        x.1.bytes.now x.1.number) RefusesHeader result
        (spec.header_of name.now (kept (lines_from 1 bytes.entry.now))) }
    ensures named { IfOk result (λ x. is_name false x.0.now ≡ true) }
{
    let rest = module_line(name.bytes(), Rest::all(bytes))?;
    let (language, rest) = name_row(b"language ", rest)?;
    let rest = name_rows(alloc, b"use ", rest, uses)?;
    let rest = name_rows(alloc, b"import ", rest, imports)?;
    let body = end_line(rest)?;
    Ok((language, body))
}

/// The header that the lines of a module's file state.
fn header_parts<'a>(alloc: Global, name: &Text, bytes: &'a [u8]) -> Result<Parts<'a>, HeaderError>
    ensures { GivesRead (parts_view name.now) RefusesHeader result
        (spec.header_of name.now (kept (lines_from 1 bytes.entry.now))) }
{
    let mut uses = Vec::new(alloc);
    let mut imports = Vec::new(alloc);
    match read_rows(alloc, name, bytes, &mut uses, &mut imports) {
        Ok((language, body)) => match name_text(alloc, language) {
            Ok(language) => Ok(Parts {
                language,
                uses,
                imports,
                body,
            }),
            Err(_) => {
                drop(imports);
                drop(uses);
                Err(HeaderError::Memory)
            }
        },
        Err(e) => {
            drop(imports);
            drop(uses);
            Err(e)
        }
    }
}

/// The header of a module's file, of which nothing else is known.
fn checked_header(alloc: Global, name: &Text, bytes: &[u8]) -> Result<Header, HeaderError>
    ensures text { IsText bytes.now result }
    ensures exact { GivesRead (header_view bytes.now) (RefusesText bytes.now) result
        (spec.header_of name.now (kept (lines_from 1 bytes.now))) }
    ensures within { IfOk result (λ h. h.body ≤ length bytes.now) }
{
    match std::str::from_utf8(bytes) {
        Err(e) => Err(HeaderError::NotUtf8(e.valid_up_to())),
        Ok(_) => {
            let parts = header_parts(alloc, name, bytes)?;
            let body = bytes.len() - parts.body.bytes.len();
            let line = parts.body.number;
            match name.copy(alloc) {
                Ok(name) => Ok(Header {
                    name,
                    language: parts.language,
                    uses: parts.uses,
                    imports: parts.imports,
                    body,
                    line,
                }),
                Err(_) => {
                    drop(parts);
                    Err(HeaderError::Memory)
                }
            }
        }
    }
}

/// The header of the module file with these bytes, of a module of this name. Lines past
/// 4,294,967,294 have all the number 4,294,967,295.
///
/// Blank lines and lines that begin with `//` are skipped. The lines are `module` and the name,
/// `language` and a name, then `use` lines, then `import` lines, then `---`; the body is what
/// follows. No name stands in two `use` lines or in two `import` lines.
///
/// `NotUtf8` comes exactly where the bytes are not UTF-8, and else `Header` exactly where they have
/// no header.
pub fn read_header(alloc: Global, name: &Text, bytes: &[u8]) -> Result<Header, HeaderError>
    ensures text { IsText bytes.now result }
    // What is read is stated.
    ensures found { IfOk result (λ h. StatesHeader name.now (kept (lines_from 1 bytes.now))
        (header_view bytes.now h)) }
    // What is stated is read, unless memory runs out.
    ensures only { (h : HeaderParts) → StatesHeader name.now (kept (lines_from 1 bytes.now)) h
        → GivesRead (header_view bytes.now) (RefusesText bytes.now) result (Ok h) }
    // The line that is refused is the first that is not as defined.
    ensures refused { IfErr result (λ e. IfSome (error_line e)
        (IsFirstBad (StatesHeader name.now) (kept (lines_from 1 bytes.now)))) }
    ensures exact { GivesRead (header_view bytes.now) (RefusesText bytes.now) result
        (spec.header_of name.now (kept (lines_from 1 bytes.now))) }
    ensures within { IfOk result (λ h. h.body ≤ length bytes.now) }
{
    checked_header(alloc, name, bytes)
}
