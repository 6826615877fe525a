//! Reading interfaces.

ghost use Rattle.std.specs.Prelude.{◌≡◌, true, false, Ok, None, IfOk, IfErr, IfSome};
ghost use Rattle.std.specs.Str.{IsUtf8};
ghost use Rattle.sx_lines.specs.FirstBad.{IsFirstBad};
ghost use Rattle.sx_lines.specs.Words.{is_name};
ghost use Rattle.sx_lines.specs.Lines.{line_texts, lines_from, IsLineText};
ghost use Rattle.sx_lines.specs.Reading.{GivesRead, written};
ghost use Rattle.sx_interface.specs.Interfaces as spec;
ghost use Rattle.sx_interface.specs.Interfaces.{InterfaceParts, interface_lines};
ghost use Rattle.sx_interface.specs.Stated.{IsInterface, StatesInterface};
ghost use Rattle.sx_interface.specs.InterfaceView.{marks_view, rows_view, interface_view};
ghost use Rattle.sx_interface.specs.declared.error.HeaderError.TheVariants.{Memory};
ghost use Rattle.sx_interface.specs.Reading.{RefusesHeader, RefusesText, IsText, AnswersVersion};
ghost use Rattle.sx_interface.specs.Reading.{error_line};

use crate::error::HeaderError;
use crate::interface_rows::{Rows, read_rows};
use crate::interfaces::{ImportMark, Interface};
use crate::texts::name_text;
use std::alloc::Global;
use sx_lines::{Rest, after, number_within};
use sx_term::{NoMemory, Text};

/// The marks of an interface.
#[derive(Drop)]
struct Marks {
    uses: Vec<ImportMark>,
    imports: Vec<ImportMark>,
}

/// The texts of an interface.
#[derive(Drop)]
struct Texts {
    module: Text,
    language: Text,
    signature: Text,
    stated: Text,
}

/// The texts of the module's name and of rows.
fn owned_texts(alloc: Global, name: &Text, rows: Rows<'_>) -> Result<Texts, NoMemory>
    requires named { is_name false rows.language.now ≡ true }
    requires signature { IsUtf8 rows.signature.now }
    requires stated { IsUtf8 rows.stated.now }
    ensures names { IfOk result (λ x. (x.«module» ≡ name.now) ×
        (x.language ≡ rows.entry.language.now)) }
    ensures signatures { IfOk result (λ x. (x.signature ≡ rows.entry.signature.now) ×
        (x.stated ≡ rows.entry.stated.now)) }
{
    Ok(Texts {
        module: name.copy(alloc)?,
        language: name_text(alloc, rows.language)?,
        signature: Text::of_utf8(alloc, rows.signature)?,
        stated: Text::of_utf8(alloc, rows.stated)?,
    })
}

/// The interface of the module with this name, of rows and marks.
fn interface_with(
    alloc: Global,
    name: &Text,
    rows: Rows<'_>,
    marks: Marks,
) -> Result<Interface, HeaderError>
    requires named { is_name false rows.language.now ≡ true }
    requires signature { IsUtf8 rows.signature.now }
    requires stated { IsUtf8 rows.stated.now }
    ensures good { IfOk result (λ it. interface_view it ≡ rows_view name.now rows.entry
        (marks_view marks.uses.items) (marks_view marks.imports.items)) }
    ensures refused { IfErr result (λ e. e ≡ Memory) }
{
    match owned_texts(alloc, name, rows) {
        Ok(texts) => Ok(Interface {
            module: texts.module,
            language: texts.language,
            language_digest: rows.language_digest,
            uses: marks.uses,
            base_digest: rows.base_digest,
            imports: marks.imports,
            signature: texts.signature,
            stated: texts.stated,
        }),
        Err(_) => {
            drop(marks);
            Err(HeaderError::Memory)
        }
    }
}

/// The interface that lines state.
fn interface(alloc: Global, name: &Text, bytes: &[u8]) -> Result<Interface, HeaderError>
    requires utf8 { IsUtf8 bytes.now }
    ensures { GivesRead interface_view RefusesHeader result
        (spec.interface_of name.now (lines_from 1 bytes.now)) }
{
    let mut marks = Marks {
        uses: Vec::new(alloc),
        imports: Vec::new(alloc),
    };
    match read_rows(alloc, name, bytes, &mut marks.uses, &mut marks.imports) {
        Ok(rows) => interface_with(alloc, name, rows, marks),
        Err(e) => {
            drop(marks);
            Err(e)
        }
    }
}

/// The number of another version.
#[tactic(auto, unfolding(crate::specs::Interfaces::other_version))]
fn other_version(bytes: &[u8]) -> Option<u64>
    ensures { result ≡ spec.other_version (lines_from 1 bytes.now) }
{
    match Rest::all(bytes).next() {
        Ok((line, _)) => {
            let digits = after(line.text, b"sxint ")?;
            let number = number_within(u64::MAX, digits)?;
            if number == 1 || number == 2 {
                return None;
            }
            Some(number)
        }
        Err(_) => None,
    }
}

/// The interface of a module, or the version.
fn checked(alloc: Global, name: &Text, bytes: &[u8]) -> Result<Interface, HeaderError>
    ensures text { IsText bytes.now result }
    ensures exact { AnswersVersion bytes.now (spec.other_version
        (lines_from 1 bytes.now)) interface_view result
        (spec.interface_of name.now (lines_from 1 bytes.now)) }
{
    match std::str::from_utf8(bytes) {
        Err(e) => Err(HeaderError::NotUtf8(e.valid_up_to())),
        Ok(_) => match other_version(bytes) {
            Some(version) => Err(HeaderError::Version(version)),
            None => interface(alloc, name, bytes),
        },
    }
}

/// The interface that the file with these bytes states, of a module of this name. Lines past
/// 4,294,967,294 have all the number 4,294,967,295.
///
/// The lines are `sxint 2`, `module` and the name, `language` with a name and a digest, a `use`
/// line with a name and a digest for each extension, `base` with a digest, an `import` line with
/// a name and a digest for each import, `---`, the signature and the stated signature. No name
/// stands in two `use` lines or in two `import` lines. In version 1 the first line is `sxint 1`,
/// there are no `use` lines, and the signature, which is the last line, is also the stated one.
///
/// `NotUtf8` comes exactly where the bytes are not UTF-8, else `Version` exactly where the first
/// line is `sxint` and a number other than 1 and 2, and else `Header` exactly where they state no
/// interface.
pub fn read_interface(alloc: Global, name: &Text, bytes: &[u8]) -> Result<Interface, HeaderError>
    ensures text { IsText bytes.now result }
    // What is read is stated.
    ensures found { IfOk result (λ it. StatesInterface name.now (line_texts
        (lines_from 1 bytes.now))
        (interface_view it)) }
    // What is stated is read, unless memory runs out.
    ensures only { (it : InterfaceParts) → StatesInterface name.now
        (line_texts (lines_from 1 bytes.now)) it
        → GivesRead interface_view (RefusesText bytes.now) result (Ok it) }
    // The line that is refused is the first that is not as defined.
    ensures refused { IfErr result (λ e. IfSome (error_line e)
        (IsFirstBad (λ l. StatesInterface name.now (line_texts l)) (lines_from 1 bytes.now))) }
    ensures exact { AnswersVersion bytes.now (spec.other_version
        (lines_from 1 bytes.now)) interface_view result
        (spec.interface_of name.now (lines_from 1 bytes.now)) }
{
    checked(alloc, name, bytes)
}

/// What was written of an interface is read again as the same one, where its names are names,
/// those of the uses and those of the imports are distinct, and neither signature has a line
/// feed, or a carriage return at its end.
pub fn written_interface_is_read()
    ensures version { (it : InterfaceParts) → spec.other_version
        (lines_from 1 (written (interface_lines it))) ≡ None }
    ensures value { (it : InterfaceParts) → is_name false it.name ≡ true →
        IsInterface it.name it → IsLineText it.signature → IsLineText it.stated
        → spec.interface_of it.name (lines_from 1 (written (interface_lines it))) ≡ Ok it }
{}
