//! The walk through files by the names that they stand on.

ghost use Rattle.std.specs.Prelude.{◌≡◌, IfOk, Some};
ghost use Rattle.sx_steps.specs.Stop.{OnlyReads};
ghost use Rattle.sx_walking.specs.FileTable.{held_in};
ghost use Rattle.sx_walking.specs.Opened.{AreOpened};
ghost use Rattle.sx_walking.specs.Turns.{walk_stop as stop_of_walk, IsStopOr, Enters};
ghost use Rattle.sx_walking.specs.Turns.{TakesTurn, AreFilesWalked};

use crate::file_table::FileTable;
use crate::turn::Turn;
use crate::visiting::visit;
use crate::walked_kind::WalkedKind;
use std::alloc::Global;
use sx_imports::{Next, Visit, Walk, WalkError};
use sx_outside::Shelf;
use sx_steps::{StepError, Stop, refused};
use sx_term::{NoMemory, Text};
use sx_words::{ClosureDefect, Defect};

/// The refusal of a walk.
fn walk_stop(alloc: Global, file: &Text, error: WalkError) -> Result<Stop, NoMemory>
    ensures { IfOk result (λ stop. stop_of_walk file.now error ≡ Some stop) }
{
    match error {
        WalkError::Memory => Err(NoMemory::Memory),
        WalkError::Cycle(names) => {
            refused(alloc, file, Defect::Closure(ClosureDefect::Cycle(names)))
        }
        WalkError::TooMany => refused(alloc, file, Defect::Closure(ClosureDefect::TooManyModules)),
    }
}

/// So as the refusal of a step.
fn stopped(alloc: Global, file: &Text, error: WalkError) -> StepError
    ensures { IsStopOr (stop_of_walk file.now error) result }
{
    match walk_stop(alloc, file, error) {
        Ok(stop) => StepError::Stopped(stop),
        Err(_) => StepError::Memory,
    }
}

/// Goes on after a visit.
fn enter(alloc: Global, file: &Text, visit: Visit, names: Vec<Text>) -> Result<Turn, StepError>
    ensures { Enters file.now visit names.items result }
{
    match visit.visited(names) {
        Ok(next) => Ok(Turn::On(next)),
        Err(error) => Err(stopped(alloc, file, error)),
    }
}

/// One more visit of the walk.
fn turn<K: WalkedKind, S: Shelf>(
    alloc: Global,
    kind: &K,
    file: &Text,
    walk: Walk,
    files: &mut FileTable<K::File>,
    shelf: &mut S,
) -> Result<Turn, StepError>
    requires { AreOpened (K.kind kind.now) (S.content shelf.now) (held_in K.says files.now) }
    ensures step { TakesTurn (K.kind kind.now) (S.content shelf.old) file.now
        (held_in K.says files.old) (held_in K.says files.new) walk result }
    ensures reads { OnlyReads (S.content shelf.old) (S.content shelf.new)
        (S.read_faults shelf.old) (S.read_faults shelf.new)
        (S.write_faults shelf.old) (S.write_faults shelf.new) result }
{
    match walk.next() {
        Ok(Next::Order(order)) => Ok(Turn::Whole(order)),
        Ok(Next::Visit(asked)) => match visit(alloc, kind, asked.name(), files, shelf) {
            Ok(names) => enter(alloc, file, asked, names),
            Err(e) => {
                drop(asked);
                Err(e)
            }
        },
        Err(error) => Err(stopped(alloc, file, error)),
    }
}

/// The names that are reached from the roots, in the order in which the walk leaves them. Their
/// files are held then.
pub(crate) fn walk_files<K: WalkedKind, S: Shelf>(
    alloc: Global,
    kind: &K,
    file: &Text,
    roots: Vec<Text>,
    files: &mut FileTable<K::File>,
    shelf: &mut S,
) -> Result<Vec<Text>, StepError>
    requires { AreOpened (K.kind kind.now) (S.content shelf.now) (held_in K.says files.now) }
    ensures step { AreFilesWalked (K.kind kind.now) (S.content shelf.old) file.now roots.items
        (held_in K.says files.new) result }
    ensures reads { OnlyReads (S.content shelf.old) (S.content shelf.new)
        (S.read_faults shelf.old) (S.read_faults shelf.new)
        (S.write_faults shelf.old) (S.write_faults shelf.new) result }
{
    let mut walk = Walk::begin(alloc, roots);
    loop {
        match turn(alloc, kind, file, walk, files, shelf) {
            Ok(Turn::On(next)) => walk = next,
            Ok(Turn::Whole(order)) => return Ok(order),
            Err(e) => return Err(e),
        }
    }
}
