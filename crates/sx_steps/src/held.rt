//! The step that reads a file.

ghost use Rattle.std.specs.Prelude.{◌≤◌, IfOk, length};
ghost use Rattle.sx_outside.specs.Told.{WhereTold};
ghost use Rattle.sx_steps.specs.Held.{Held};
ghost use Rattle.sx_steps.specs.Stop.{Gives, OnlyReads};

use crate::step_error::StepError;
use crate::stop::about;
use std::alloc::Global;
use sx_outside::{ReadAnswer, Shelf};
use sx_term::Text;
use sx_words::{Defect, FileDefect};

/// The most bytes that a derivation list has.
pub const MOST_LIST_BYTES: u32 = 67_108_864;

/// The bytes of the file, at most so many.
pub fn read_file<S: Shelf>(
    alloc: Global,
    file: &Text,
    limit: u32,
    shelf: &mut S,
) -> Result<Vec<u8>, StepError>
    ensures step { WhereTold (S.content shelf.old)
        (λ files. Gives (λ bytes. bytes.items) (Held limit file.now files) result) }
    ensures short { IfOk result (λ bytes. length bytes.items ≤ limit) }
    ensures reads { OnlyReads (S.content shelf.old) (S.content shelf.new)
        (S.read_faults shelf.old) (S.read_faults shelf.new)
        (S.write_faults shelf.old) (S.write_faults shelf.new) result }
{
    let other = file.copy(alloc)?;
    let mut bytes = Vec::new(alloc);
    match shelf.read(file, limit, &mut bytes) {
        ReadAnswer::Found => Ok(bytes),
        ReadAnswer::Absent => Err(StepError::Stopped(about(
            other,
            Defect::File(FileDefect::Absent),
        ))),
        ReadAnswer::TooLong => Err(StepError::Stopped(about(
            other,
            Defect::File(FileDefect::TooLong),
        ))),
        ReadAnswer::Failed => Err(StepError::Stopped(about(
            other,
            Defect::File(FileDefect::ReadFault),
        ))),
        ReadAnswer::NoMemory => Err(StepError::Memory),
    }
}
