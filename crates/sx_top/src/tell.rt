//! Telling why nothing was written.

ghost use Rattle.std.specs.Prelude.{◌≡◌};
ghost use Rattle.sx_steps.specs.Refusal.{line_of};
ghost use Rattle.sx_top.specs.Course.{answered as status_answered, Sent};
ghost use Rattle.sx_top.specs.Telling.{IsStopTold};

use std::alloc::Global;
use sx_outside::{Sink, WriteAnswer};
use sx_steps::{Status, StepError, Stop};

/// The status, by the answer to the last text that was sent.
pub fn answered(status: Status, answer: WriteAnswer) -> Status
    ensures { result ≡ status_answered status answer }
{
    match answer {
        WriteAnswer::Done => status,
        WriteAnswer::Failed => Status::WriteFault,
        WriteAnswer::NoMemory => Status::NoMemory,
    }
}

/// Sends the line of a stop.
fn send_line<K: Sink>(alloc: Global, stop: &Stop, out: &mut K) -> WriteAnswer
    ensures { Sent (line_of stop.now) result (K.content out.old) (K.content out.new)
        (K.faults out.old) (K.faults out.new) }
{
    match stop.line(alloc) {
        Ok(line) => out.write(&line),
        Err(_) => WriteAnswer::NoMemory,
    }
}

/// Tells why nothing was written.
pub fn tell<K: Sink>(alloc: Global, error: &StepError, out: &mut K) -> Status
    ensures { IsStopTold error.now result (K.content out.old) (K.content out.new) (K.faults out.old)
        (K.faults out.new) }
{
    match error {
        StepError::Memory => Status::NoMemory,
        StepError::Stopped(stop) => answered(stop.status(), send_line(alloc, stop, out)),
    }
}
