//! The top call.

ghost use Rattle.std.specs.Prelude.{◌≡◌, ◌⊎◌, ◌<◌, map};
ghost use Rattle.sx_outside.specs.Told.{Told, WhereTold};
ghost use Rattle.sx_outside.specs.Faults.{Rose};
ghost use Rattle.sx_top.specs.Calls.{call};
ghost use Rattle.sx_top.specs.Course.{seen};
ghost use Rattle.sx_top.specs.Ending.{Ends, KeepsPromise, IsAfterRead, HasNoDefect, IsDoneOrShort};

use crate::perform::perform;
use crate::plan::plan;
use crate::tell::tell;
use std::alloc::Global;
use std::sync::ledger::Ledger;
use sx_audit::Auditor;
use sx_outside::{Shelf, Sink, Source};
use sx_steps::Status;
use sx_term::{Steps, Text};

/// Does what the words say, which are the command line without the program's name.
/// Reads and writes files on the shelf, and writes lines on `out`. No command takes from `input`.
/// Of the auditors that are handed in, those that the words name are set as these say and shown
/// what is derived of modules; all are dropped before it returns.
pub fn run<S: Shelf, I: Source, K: Sink, L: Ledger>(
    alloc: Global,
    words: &[Text],
    shelf: &mut S,
    input: &mut I,
    out: &mut K,
    auditors: Vec<Box<dyn Auditor>>,
    steps: &mut Steps<L>,
) -> Status
    // By the words and the files: the status, what stands on the shelf, what the sink got, which
    // counts of faults rose, and by how many tries the steps rose.
    ensures ends { Ends (call words.now (map (λ b. meaning b) auditors.items)) result
        (seen (S.content shelf.old) (K.content out.old) (S.read_faults shelf.old)
        (S.write_faults shelf.old) (K.faults out.old))
        (seen (S.content shelf.new) (K.content out.new) (S.read_faults shelf.new)
        (S.write_faults shelf.new) (K.faults out.new))
        steps.old steps.new }
    // When it is done, the command keeps its promise.
    ensures promise { Told (KeepsPromise
        (call words.now (map (λ b. meaning b) auditors.items)) result (K.content out.old)
        (K.content out.new)) (S.content shelf.old) (S.content shelf.new) }
    // A fault has its cause.
    ensures read_fault { result ≡ Status.ReadFault →
        Rose (S.read_faults shelf.old) (S.read_faults shelf.new) }
    ensures write_fault { result ≡ Status.WriteFault →
        Rose (S.write_faults shelf.old) (S.write_faults shelf.new) ⊎
        Rose (K.faults out.old) (K.faults out.new) }
    // A fault forces its status.
    ensures failed_write { S.write_faults shelf.old < S.write_faults shelf.new →
        result ≡ Status.WriteFault }
    ensures failed_send { K.faults out.old < K.faults out.new → result ≡ Status.WriteFault }
    ensures failed_read { S.read_faults shelf.old < S.read_faults shelf.new →
        IsAfterRead result (K.faults out.old) (K.faults out.new) }
    // Nothing is taken from the input.
    ensures input { I.content input.new ≡ I.content input.old }
    ensures takes { I.faults input.new ≡ I.faults input.old }
    // Where nothing is wrong with the words and the files, and no fault came, it is done, or memory
    // lacked.
    ensures complete { WhereTold (S.content shelf.old) (λ files. HasNoDefect
        (call words.now (map (λ b. meaning b) auditors.items)) files
        → (Rose (S.read_faults shelf.old) (S.read_faults shelf.new) → ⊥)
        → (Rose (S.write_faults shelf.old) (S.write_faults shelf.new) → ⊥)
        → (Rose (K.faults out.old) (K.faults out.new) → ⊥)
        → IsDoneOrShort result) }
{
    let _ = input;
    match plan(alloc, words, auditors, shelf, steps) {
        Ok(work) => {
            let status = perform(alloc, &work, shelf, out);
            drop(work);
            status
        }
        Err(error) => {
            let status = tell(alloc, &error, out);
            drop(error);
            status
        }
    }
}
