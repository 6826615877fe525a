//! The stops of lists that are not read or fit no derivation.

ghost use Rattle.std.specs.Prelude.{◌≡◌, IfOk, Some};
ghost use Rattle.sx_steps.specs.Refusal.{status_of};
ghost use Rattle.sx_steps.specs.declared.status.Status.TheVariants as statuses;
ghost use Rattle.sx_verify.specs.Lists as stops;

use std::alloc::Global;
use sx_replay::ReplayError;
use sx_steps::{Stop, refused, refused_at};
use sx_term::{NoMemory, Text};
use sx_words::{Defect, FileDefect, ListDefect, Position, TextDefect};

/// The refusal of a list with a bad line.
pub fn bad_entry(alloc: Global, file: &Text, line: u32) -> Result<Stop, NoMemory>
    ensures { IfOk result (λ stop. stop ≡ stops.bad_entry file.now line) }
{
    refused_at(
        alloc,
        file,
        Position::Line(line),
        Defect::File(FileDefect::BadList),
    )
}

/// Why the list in the file is not that of a derivation.
pub fn bad_replay(alloc: Global, file: &Text, error: ReplayError) -> Result<Stop, NoMemory>
    ensures stop { IfOk result (λ stop. stops.replay_stop file.now error ≡ Some stop) }
    ensures refused { IfOk result (λ stop. status_of stop ≡ statuses.Refused) }
{
    let defect = match error {
        ReplayError::Memory => return Err(NoMemory::Memory),
        ReplayError::WrongAt(entry) => Defect::List(ListDefect::WrongAt(u64::from(entry))),
        ReplayError::EndsEarly => Defect::List(ListDefect::EndsEarly),
        ReplayError::LongList(entry) => Defect::List(ListDefect::LongList(u64::from(entry))),
        ReplayError::TooDeep(depth) => Defect::Text(TextDefect::TooDeep(depth)),
        ReplayError::TooBig(size) => Defect::Text(TextDefect::TooBig(size)),
        ReplayError::DeepList(entry) => Defect::List(ListDefect::DeepList(u64::from(entry))),
    };
    refused(alloc, file, defect)
}
