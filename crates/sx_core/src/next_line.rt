//! Reading the next line of a core file.

ghost use Rattle.std.specs.Prelude.{◌≡◌, ◌↔◌, IsTrue, codes, MatchResult};
ghost use Rattle.sx_core.specs.declared.stage.Stage.TheVariants as stages;
ghost use Rattle.sx_core.specs.Machine as spec;
ghost use Rattle.sx_core.specs.Machine.{IsUsual, NextRead, NextRefused};
ghost use Rattle.sx_core.specs.Order.{phase_of, at_end};
ghost use Rattle.sx_core.specs.Reading.{context, AreNamesFound, IsCoreLineRead};

use crate::error::CoreFileError;
use crate::keyword::split_keyword;
use crate::line_read::LineRead;
use crate::line_reading::read_line;
use crate::reader::Reader;
use crate::stage::Stage;
use crate::step_error::StepError;
use crate::terms_row::RowError;
use std::alloc::Global;
use sx_lines::Kind;

/// Whether nothing has been read.
fn is_start(stage: &Stage) -> bool
    ensures { IsTrue result ↔ (stage.now ≡ stages.Start) }
{
    matches!(stage, Stage::Start)
}

/// Whether the line is the stated first one.
fn is_head(text: &[u8]) -> bool
    ensures { IsTrue result ↔ (text.now ≡ codes "sxcore 1") }
{
    text == b"sxcore 1".as_slice()
}

/// Whether the goal has been read.
fn is_over(stage: &Stage) -> bool
    ensures { IsTrue result ↔ (phase_of stage.now ≡ at_end) }
{
    match stage {
        Stage::Start => false,
        Stage::Declaring => false,
        Stage::Between => false,
        Stage::Premising(_) => false,
        Stage::Concluded(_, _) => false,
        Stage::Over(_) => true,
    }
}

/// What a refusal of a row is at the line of this number.
fn line_error(number: u32, e: RowError) -> CoreFileError
    ensures { result ≡ spec.line_error number e }
{
    match e {
        RowError::Memory => CoreFileError::Memory,
        RowError::Shape => CoreFileError::Notation {
            line: number,
            kind: Kind::Shape,
        },
        RowError::TooDeep(depth) => CoreFileError::TooDeep {
            line: number,
            depth,
        },
    }
}

/// Why the line of this number is not taken.
fn step_error(number: u32, e: StepError) -> CoreFileError
    ensures { result ≡ spec.step_error number e }
{
    match e {
        StepError::Memory => CoreFileError::Memory,
        StepError::Order => CoreFileError::Notation {
            line: number,
            kind: Kind::Order,
        },
    }
}

/// Takes the first line.
fn first_line(reader: Reader, number: u32, text: &[u8]) -> Result<Reader, CoreFileError>
    requires { reader.stage ≡ stages.Start }
    ensures { MatchResult result (λ r. NextRead reader number text.now r)
        (λ e. NextRefused reader number text.now e) }
{
    if !is_head(text) {
        drop(reader);
        return Err(CoreFileError::Notation {
            line: number,
            kind: Kind::Head,
        });
    }
    let Reader {
        found,
        rules,
        stage,
    } = reader;
    drop(stage);
    Ok(Reader {
        found,
        rules,
        stage: Stage::Declaring,
    })
}

/// Takes what a line after the first states.
fn take_line(
    alloc: Global,
    reader: Reader,
    number: u32,
    text: &[u8],
    read: LineRead,
) -> Result<Reader, CoreFileError>
    requires found { AreNamesFound reader.found }
    requires usual { IsUsual reader }
    requires read { IsCoreLineRead (context reader.found) text.now read }
    ensures { MatchResult result (λ r. NextRead reader number text.now r)
        (λ e. NextRefused reader number text.now e) }
{
    match reader.take(alloc, number, read) {
        Ok(next) => Ok(next),
        Err(e) => Err(step_error(number, e)),
    }
}

/// Reads a line that is neither the first nor after the goal's.
fn later_line(
    alloc: Global,
    reader: Reader,
    number: u32,
    text: &[u8],
) -> Result<Reader, CoreFileError>
    requires found { AreNamesFound reader.found }
    requires usual { IsUsual reader }
    ensures { MatchResult result (λ r. NextRead reader number text.now r)
        (λ e. NextRefused reader number text.now e) }
{
    match split_keyword(text) {
        Some((keyword, rest)) => match read_line(alloc, &reader.found, keyword, text, rest) {
            Ok(read) => take_line(alloc, reader, number, text, read),
            Err(e) => {
                drop(reader);
                Err(line_error(number, e))
            }
        },
        None => {
            drop(reader);
            Err(CoreFileError::Notation {
                line: number,
                kind: Kind::Directive,
            })
        }
    }
}

/// Reads the next line, which has this number and this text.
pub(crate) fn read_next(
    alloc: Global,
    reader: Reader,
    number: u32,
    text: &[u8],
) -> Result<Reader, CoreFileError>
    requires { AreNamesFound reader.found }
    ensures { MatchResult result (λ r. NextRead reader number text.now r)
        (λ e. NextRefused reader number text.now e) }
{
    if is_over(&reader.stage) {
        drop(reader);
        return Err(CoreFileError::Notation {
            line: number,
            kind: Kind::Order,
        });
    }
    if is_start(&reader.stage) {
        return first_line(reader, number, text);
    }
    later_line(alloc, reader, number, text)
}
