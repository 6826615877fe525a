//! Writing what was planned.

ghost use Rattle.std.specs.Prelude.{◌≡◌, map, length};
ghost use Rattle.sx_outside.specs.Told.{Told};
ghost use Rattle.sx_outside.specs.Faults.{RoseWhere};
ghost use Rattle.sx_steps.specs.Refusal.{write_fault, line_of};
ghost use Rattle.sx_steps.specs.Work.{file_of, plan_of};
ghost use Rattle.sx_top.specs.Course.{seen, Sent};
ghost use Rattle.sx_top.specs.Writing.{Wrote, IsFailed, IsUnwrittenBelow};
ghost use Rattle.sx_top.specs.Performing.{Performs};

use crate::tell::answered;
use std::alloc::Global;
use sx_outside::{Shelf, Sink, WriteAnswer};
use sx_steps::{Output, Status, Work, refusal_line};
use sx_term::Text;
use sx_words::{Defect, FileDefect, Position, Refusal};

/// How writing the files of a plan ended: by the number of the file that was not written.
#[derive(Clone, Copy, PartialEq, Eq)]
pub enum WriteEnd {
    All,
    Failed(usize),
    NoMemory(usize),
}

/// Writes the files in order.
pub fn write_files<S: Shelf>(files: &[Output], shelf: &mut S) -> WriteEnd
    ensures wrote { Told (Wrote (map file_of files.now) result) (S.content shelf.old)
        (S.content shelf.new) }
    ensures below { IsUnwrittenBelow (length files.now) result }
    ensures reads { S.read_faults shelf.new ≡ S.read_faults shelf.old }
    ensures writes { RoseWhere (IsFailed result) (S.write_faults shelf.old)
        (S.write_faults shelf.new) }
{
    for i in 0..files.len() {
        let file = &files[i];
        match shelf.write(&file.name, &file.bytes) {
            WriteAnswer::Done => {}
            WriteAnswer::Failed => return WriteEnd::Failed(i),
            WriteAnswer::NoMemory => return WriteEnd::NoMemory(i),
        }
    }
    WriteEnd::All
}

/// Sends the line of a failed write.
fn send_fault<K: Sink>(alloc: Global, name: &Text, out: &mut K) -> WriteAnswer
    ensures { Sent (line_of (write_fault name.now)) result (K.content out.old) (K.content out.new)
        (K.faults out.old) (K.faults out.new) }
{
    let refusal = Refusal {
        place: Position::Nowhere,
        defect: Defect::File(FileDefect::WriteFault),
    };
    let line = refusal_line(alloc, name, &refusal);
    drop(refusal);
    match line {
        Ok(line) => out.write(&line),
        Err(_) => WriteAnswer::NoMemory,
    }
}

/// Writes the files of the plan and then its lines.
pub fn perform<S: Shelf, K: Sink>(alloc: Global, work: &Work, shelf: &mut S, out: &mut K) -> Status
    ensures { Performs (plan_of work.now) result
        (seen (S.content shelf.old) (K.content out.old) (S.read_faults shelf.old)
        (S.write_faults shelf.old) (K.faults out.old))
        (seen (S.content shelf.new) (K.content out.new) (S.read_faults shelf.new)
        (S.write_faults shelf.new) (K.faults out.new)) }
{
    match write_files(&work.files, shelf) {
        WriteEnd::All => answered(Status::Done, out.write(&work.lines)),
        WriteEnd::Failed(number) => {
            let file = &work.files[number];
            send_fault(alloc, &file.name, out);
            Status::WriteFault
        }
        WriteEnd::NoMemory(_) => Status::NoMemory,
    }
}
