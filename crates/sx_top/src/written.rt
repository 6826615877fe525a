//! The steps that read what was written for a core file.

ghost use Rattle.sx_outside.specs.Told.{WhereTold};
ghost use Rattle.sx_top.specs.Written.{Equals, Compares};
ghost use Rattle.sx_steps.specs.Stop.{Gives, OnlyReads, IsNoFault};

use std::alloc::Global;
use sx_outside::Shelf;
use sx_steps::{StepError, about, read_file};
use sx_term::{MOST_BYTES, Text};
use sx_words::{ClosureDefect, Defect};

/// The bytes are the text.
fn equal(alloc: Global, file: &Text, text: &[u8], bytes: &[u8]) -> Result<(), StepError>
    ensures step { Gives (λ done. done) (Equals file.now text.now bytes.now) result }
    ensures no_fault { IsNoFault result }
{
    if bytes != text {
        let file = file.copy(alloc)?;
        return Err(StepError::Stopped(about(file, Defect::Closure(ClosureDefect::CoreDiffers))));
    }
    Ok(())
}

/// The file is read and compared with the text.
pub fn compare<S: Shelf>(
    alloc: Global,
    file: &Text,
    text: &[u8],
    shelf: &mut S,
) -> Result<(), StepError>
    ensures step { WhereTold (S.content shelf.old)
        (λ files. Gives (λ done. done) (Compares file.now text.now files) result) }
    ensures reads { OnlyReads (S.content shelf.old) (S.content shelf.new)
        (S.read_faults shelf.old) (S.read_faults shelf.new)
        (S.write_faults shelf.old) (S.write_faults shelf.new) result }
{
    match read_file(alloc, file, MOST_BYTES, shelf) {
        Ok(bytes) => equal(alloc, file, text, &bytes),
        Err(e) => Err(e),
    }
}
