//! Reading the next line of a language file or of an extension file.

ghost use Rattle.std.specs.Prelude.{◌≡◌, ◌↔◌, List, ℕ, IsTrue, IfOk};
ghost use Rattle.std.specs.Str.{IsUtf8};
ghost use Rattle.sx_directives.specs.declared.row.Row.TheVariants as rows;
ghost use Rattle.sx_outline.specs.Declarations.{Declared};
ghost use Rattle.sx_outline.specs.Stages.{IsDue, IsBar, at_end, at_premises, concluded};
ghost use Rattle.sx_outline.specs.Stages.{numbered_rule_line};
ghost use Rattle.sx_outline.specs.Stages.{paired, plain_data, with_premise};
ghost use Rattle.sx_outline.specs.Reading.{CanCountOne, GrowsByOne, IsLineRead, IsStageRead};
ghost use Rattle.sx_outline.specs.Reading.{AddsPremise};
ghost use Rattle.sx_outline.specs.Reading.{begun as begun_of, plain_begun, stage as stage_of};
ghost use Rattle.sx_outline.specs.View as view;

use crate::head::first_line;
use crate::known::Known;
use crate::outline_error::{OutlineError, bad_line};
use crate::plain_lines::PlainLines;
use crate::read_lines::ReadLines;
use crate::reader::Reader;
use crate::rule_lines::{RuleLine, RuleLines};
use crate::spelled_row::spelled_row;
use crate::stage::{Begun, BegunPlain, Stage};
use std::alloc::Global;
use sx_directives::{FileKind, Row, RowError, read_row};
use sx_lines::{Kind, Line};
use sx_term::{NoMemory, Text, TextError};

/// Whether a row is due.
fn is_due(stage: &Stage) -> bool
    ensures { IsTrue result ↔ IsDue (stage_of stage.now) }
{
    match stage {
        Stage::Start => false,
        Stage::Declarations => true,
        Stage::Body(_) => false,
        Stage::Plains => true,
        Stage::Rules => true,
        Stage::Premises(_) => false,
        Stage::Conclusion(_) => false,
        Stage::End(_) => true,
    }
}

/// Whether the row is just `---`.
fn is_bar_row(row: Row) -> bool
    ensures { IsTrue result ↔ (row ≡ rows.Bar) }
{
    let is_bar = matches!(&row, Row::Bar);
    drop(row);
    is_bar
}

/// Whether the only part of the line is `---`.
fn is_bar(alloc: Global, text: &[u8]) -> Result<bool, NoMemory>
    ensures { IfOk result (λ b. IsTrue b ↔ IsBar text.now) }
{
    match spelled_row(alloc, FileKind::Language, text)? {
        Some(row) => Ok(is_bar_row(row)),
        None => Ok(false),
    }
}

/// The line with this number as a line of a rule.
fn rule_line(alloc: Global, number: u32, text: &[u8]) -> Result<RuleLine, NoMemory>
    requires { IsUtf8 text.now }
    ensures { IfOk result
        (λ l. numbered_rule_line l ≡ record { number = number; text = text.now }) }
{
    match Text::make(alloc, text) {
        Ok(text) => Ok(RuleLine { number, text }),
        Err(TextError::Memory) => Err(NoMemory::Memory),
        Err(TextError::NotUtf8(_)) => unreachable!(),
    }
}

/// Reads a premise of a rule.
fn add_premise(alloc: Global, begun: Begun, number: u32, text: &[u8]) -> Result<Stage, NoMemory>
    requires { IsUtf8 text.now }
    ensures { IfOk result (λ next. stage_of next
        ≡ at_premises (with_premise (begun_of begun)
        (record { number = number; text = text.now }))) }
{
    match rule_line(alloc, number, text) {
        Ok(premise) => {
            let Begun {
                number: first,
                name,
                mut premises,
            } = begun;
            premises.push(premise)?;
            Ok(Stage::Premises(Begun {
                number: first,
                name,
                premises,
            }))
        }
        Err(e) => {
            drop(begun);
            Err(e)
        }
    }
}

/// Reads a line among the premises of a rule.
fn premise_line(alloc: Global, begun: Begun, number: u32, text: &[u8]) -> Result<Stage, NoMemory>
    requires { IsUtf8 text.now }
    ensures { IfOk result (λ next. AddsPremise (begun_of begun) number text.now (stage_of next)) }
{
    match is_bar(alloc, text) {
        Ok(true) => Ok(Stage::Conclusion(begun)),
        Ok(false) => add_premise(alloc, begun, number, text),
        Err(e) => {
            drop(begun);
            Err(e)
        }
    }
}

/// Reads the conclusion of a rule.
fn conclusion_line(alloc: Global, begun: Begun, number: u32, text: &[u8]) -> Result<Stage, NoMemory>
    requires { IsUtf8 text.now }
    ensures { IfOk result (λ next. stage_of next
        ≡ at_end (concluded (begun_of begun) (record { number = number; text = text.now }))) }
{
    match rule_line(alloc, number, text) {
        Ok(conclusion) => {
            let Begun {
                number: first,
                name,
                premises,
            } = begun;
            Ok(Stage::End(RuleLines {
                number: first,
                name,
                premises,
                conclusion,
                body: None,
            }))
        }
        Err(e) => {
            drop(begun);
            Err(e)
        }
    }
}

/// Reads the body of a plain pair.
fn body_line(
    alloc: Global,
    begun: BegunPlain,
    number: u32,
    text: &[u8],
) -> Result<PlainLines, NoMemory>
    requires { IsUtf8 text.now }
    ensures { IfOk result (λ p. plain_data p ≡ paired (plain_begun begun)
        (record { number = number; text = text.now })) }
{
    match rule_line(alloc, number, text) {
        Ok(body) => {
            let BegunPlain {
                number: first,
                label,
                names,
            } = begun;
            Ok(PlainLines {
                number: first,
                label,
                names,
                body,
            })
        }
        Err(e) => {
            drop(begun);
            Err(e)
        }
    }
}

/// Reads a line where a row is due.
fn row_line(
    alloc: Global,
    kind: FileKind,
    known: &Known,
    reader: Reader,
    line: Line,
) -> Result<Reader, OutlineError>
    requires due { IsDue (stage_of reader.stage) }
    requires counted { CanCountOne reader }
    ensures read { (name : List ℕ) → IsLineRead kind (view.known known.now) name reader
        line.entry.number line.entry.text.now result }
    ensures grows { IfOk result (GrowsByOne reader) }
{
    match read_row(alloc, kind, line.text) {
        Ok(Some(row)) => match known.fits(alloc, reader.forms, reader.vars, &row) {
            Ok(true) => reader.take_row(alloc, known, line.number, row),
            Ok(false) => {
                drop(row);
                drop(reader);
                Err(bad_line(line.number, Kind::Shape))
            }
            Err(_) => {
                drop(row);
                drop(reader);
                Err(OutlineError::Memory)
            }
        },
        Ok(None) => {
            drop(reader);
            Err(bad_line(line.number, Kind::Directive))
        }
        Err(RowError::Shape) => {
            drop(reader);
            Err(bad_line(line.number, Kind::Shape))
        }
        Err(RowError::Memory) => {
            drop(reader);
            Err(OutlineError::Memory)
        }
    }
}

/// The stage after a line where no row is due. The line may complete a plain pair, which is added.
fn next_stage(
    alloc: Global,
    kind: FileKind,
    name: &Text,
    stage: Stage,
    read: &mut ReadLines,
    line: Line,
) -> Result<Stage, OutlineError>
    requires other { IsDue (stage_of stage) → ⊥ }
    requires utf8 { IsUtf8 line.text.now }
    ensures { IsStageRead kind name.now stage read.old line.entry.number line.entry.text.now
        read.new result }
{
    match stage {
        Stage::Start => match first_line(alloc, kind, name, line.number, line.text) {
            Ok(()) => Ok(Stage::Declarations),
            Err(e) => Err(e),
        },
        Stage::Body(begun) => match body_line(alloc, begun, line.number, line.text) {
            Ok(plain) => match read.add_plain(plain) {
                Ok(()) => Ok(Stage::Plains),
                Err(_) => Err(OutlineError::Memory),
            },
            Err(_) => Err(OutlineError::Memory),
        },
        Stage::Premises(begun) => match premise_line(alloc, begun, line.number, line.text) {
            Ok(next) => Ok(next),
            Err(_) => Err(OutlineError::Memory),
        },
        Stage::Conclusion(begun) => match conclusion_line(alloc, begun, line.number, line.text) {
            Ok(next) => Ok(next),
            Err(_) => Err(OutlineError::Memory),
        },
        _ => unreachable!(),
    }
}

/// Reads a line where no row is due.
fn other_line(
    alloc: Global,
    kind: FileKind,
    name: &Text,
    reader: Reader,
    line: Line,
) -> Result<Reader, OutlineError>
    requires other { IsDue (stage_of reader.stage) → ⊥ }
    requires utf8 { IsUtf8 line.text.now }
    ensures read { (known : Declared) → IsLineRead kind known name.now reader line.entry.number
        line.entry.text.now result }
    ensures grows { IfOk result (GrowsByOne reader) }
{
    let Reader {
        stage,
        forms,
        vars,
        main,
        mut read,
    } = reader;
    match next_stage(alloc, kind, name, stage, &mut read, line) {
        Ok(stage) => Ok(Reader {
            stage,
            forms,
            vars,
            main,
            read,
        }),
        Err(e) => {
            drop(read);
            Err(e)
        }
    }
}

/// Reads the next line.
pub(crate) fn read_next(
    alloc: Global,
    kind: FileKind,
    known: &Known,
    name: &Text,
    reader: Reader,
    line: Line,
) -> Result<Reader, OutlineError>
    requires counted { CanCountOne reader }
    requires utf8 { IsUtf8 line.text.now }
    ensures read { IsLineRead kind (view.known known.now) name.now reader line.entry.number
        line.entry.text.now result }
    ensures grows { IfOk result (GrowsByOne reader) }
{
    if is_due(&reader.stage) {
        return row_line(alloc, kind, known, reader, line);
    }
    other_line(alloc, kind, name, reader, line)
}
