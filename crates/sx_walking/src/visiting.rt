//! The visit of a file: it is read, if it is not held, and is to fit.

ghost use Rattle.sx_steps.specs.Stop.{OnlyReads};
ghost use Rattle.sx_walking.specs.FileTable.{held_in};
ghost use Rattle.sx_walking.specs.Opened.{AreOpened};
ghost use Rattle.sx_walking.specs.Turns.{OpensFile, IsVisit};

use crate::file_table::FileTable;
use crate::walked_kind::WalkedKind;
use std::alloc::Global;
use sx_outside::Shelf;
use sx_steps::StepError;
use sx_term::Text;

/// Reads the file with this name, if it is not held.
fn open_file<K: WalkedKind, S: Shelf>(
    alloc: Global,
    kind: &K,
    name: &Text,
    files: &mut FileTable<K::File>,
    shelf: &mut S,
) -> Result<(), StepError>
    requires { AreOpened (K.kind kind.now) (S.content shelf.now) (held_in K.says files.now) }
    ensures step { OpensFile (K.kind kind.now) (S.content shelf.old) name.now
        (held_in K.says files.old) (held_in K.says files.new) result }
    ensures reads { OnlyReads (S.content shelf.old) (S.content shelf.new)
        (S.read_faults shelf.old) (S.read_faults shelf.new)
        (S.write_faults shelf.old) (S.write_faults shelf.new) result }
{
    if files.has(name) {
        return Ok(());
    }
    match kind.read(alloc, name, shelf) {
        Ok(file) => match files.put(name, file) {
            Ok(()) => Ok(()),
            Err(_) => Err(StepError::Memory),
        },
        Err(e) => Err(e),
    }
}

/// Visits the file with this name.
pub(crate) fn visit<K: WalkedKind, S: Shelf>(
    alloc: Global,
    kind: &K,
    name: &Text,
    files: &mut FileTable<K::File>,
    shelf: &mut S,
) -> Result<Vec<Text>, StepError>
    requires { AreOpened (K.kind kind.now) (S.content shelf.now) (held_in K.says files.now) }
    ensures step { IsVisit (K.kind kind.now) (S.content shelf.old) name.now
        (held_in K.says files.old) (held_in K.says files.new) result }
    ensures reads { OnlyReads (S.content shelf.old) (S.content shelf.new)
        (S.read_faults shelf.old) (S.read_faults shelf.new)
        (S.write_faults shelf.old) (S.write_faults shelf.new) result }
{
    match open_file(alloc, kind, name, files, shelf) {
        Ok(()) => match files.get(name) {
            Some(file) => kind.stands_on(alloc, name, file),
            None => unreachable!(),
        },
        Err(e) => Err(e),
    }
}
