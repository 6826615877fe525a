//! Why a command ends early.

ghost use Rattle.std.specs.Prelude.{◌≡◌, IfOk};
ghost use Rattle.sx_steps.specs.Refusal.{about as stop_about, file_status as status_of_file};
ghost use Rattle.sx_steps.specs.Refusal.{defect_status as status_of_defect, status_of, line_of};
ghost use Rattle.sx_words.specs.Lines.{line_text};
ghost use Rattle.sx_words.specs.RefusalText.{refusal_text};

use crate::status::Status;
use std::alloc::Global;
use sx_term::{NoMemory, Text};
use sx_words::{Defect, FileDefect, Position, Refusal, write_refusal};

/// Why a command ends early: a refusal, or a fault of reading a file, with the file that it is
/// about.
#[derive(Debug, Drop)]
pub struct Stop {
    pub file: Text,
    pub refusal: Refusal,
}

/// A defect of a file, of which the line says no place.
pub fn about(file: Text, defect: Defect) -> Stop
    ensures { result ≡ stop_about file defect }
{
    Stop {
        file,
        refusal: Refusal {
            place: Position::Nowhere,
            defect,
        },
    }
}

/// The line that names the refusal.
pub fn refusal_line(alloc: Global, file: &Text, refusal: &Refusal) -> Result<Vec<u8>, NoMemory>
    ensures { IfOk result (λ bytes. bytes.items ≡ line_text file.now (refusal_text refusal.now)) }
{
    let mut line = Vec::new(alloc);
    write_refusal(alloc, file, refusal, &mut line)?;
    Ok(line)
}

/// The status of a defect of the words or of a whole file.
fn file_status(defect: &FileDefect) -> Status
    ensures { result ≡ status_of_file defect.now }
{
    match defect {
        FileDefect::Word(_) => Status::Words,
        FileDefect::ReadFault => Status::ReadFault,
        FileDefect::WriteFault => Status::WriteFault,
        FileDefect::Absent
        | FileDefect::TooLong
        | FileDefect::NotUtf8(_)
        | FileDefect::Notation(_)
        | FileDefect::Header
        | FileDefect::Version(_)
        | FileDefect::BadList => Status::Refused,
    }
}

/// The status of a defect.
fn defect_status(defect: &Defect) -> Status
    ensures { result ≡ status_of_defect defect.now }
{
    match defect {
        Defect::File(file) => file_status(file),
        Defect::Budget(_) => Status::Spent,
        Defect::Text(_)
        | Defect::Grammar(_)
        | Defect::Rule(_)
        | Defect::Extension(_)
        | Defect::Goal(_)
        | Defect::Print { part: _, defect: _ }
        | Defect::Captured(_)
        | Defect::Closure(_)
        | Defect::List(_)
        | Defect::Objected {
            auditor: _,
            node: _,
            rule: _,
        } => Status::Refused,
    }
}

impl Stop {
    /// The status that it gives.
    pub fn status(&self) -> Status
        ensures { result ≡ status_of self.now }
    {
        defect_status(&self.refusal.defect)
    }

    /// Its line.
    pub fn line(&self, alloc: Global) -> Result<Vec<u8>, NoMemory>
        ensures { IfOk result (λ bytes. bytes.items ≡ line_of self.now) }
    {
        refusal_line(alloc, &self.file, &self.refusal)
    }
}
