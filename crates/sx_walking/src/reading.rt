//! The step that reads the files that are reached from some names.

ghost use Rattle.std.specs.Prelude.{◌≡◌, ◌≤◌, IfOk, IfSome, Ok, Some, length, map, option_map};
ghost use Rattle.std.specs.List.{AllByRecursion};
ghost use Rattle.sx_outside.specs.Told.{WhereTold};
ghost use Rattle.sx_steps.specs.Stop.{Gives, OnlyReads};
ghost use Rattle.sx_walking.specs.FileTable.{table_files, held_in};
ghost use Rattle.sx_walking.specs.Kinds.{ReachesBy, AreFilesReached};
ghost use Rattle.sx_walking.specs.Opened.{IsBegun, AreOnce, AreFilesHeld};

use crate::file_table::FileTable;
use crate::walked_kind::WalkedKind;
use crate::walking::walk_files;
use std::alloc::Global;
use sx_outside::Shelf;
use sx_steps::StepError;
use sx_term::{NoMemory, Text};

/// A table with the file that was read before, if there is one.
fn begin<K: WalkedKind>(
    alloc: Global,
    kind: &K,
    held: Option<K::File>,
) -> Result<FileTable<K::File>, NoMemory>
    ensures { IfOk result (λ files.
        IsBegun (K.kind kind.now) (option_map K.says held) (held_in K.says files)) }
{
    let mut files = FileTable::new(alloc);
    match held {
        Some(file) => {
            let name = kind.name(alloc, &file)?;
            files.put(&name, file)?;
            Ok(files)
        }
        None => Ok(files),
    }
}

/// Takes the files with these names out, which are held.
fn take_files<F: Drop>(
    alloc: Global,
    order: &[Text],
    files: &mut FileTable<F>,
) -> Result<Vec<F>, NoMemory>
    requires once { AreOnce order.now }
    requires held { AreFilesHeld (table_files files.now) order.now }
    ensures { IfOk result (λ taken.
        map Some taken.items ≡ map (table_files files.old) order.now) }
{
    let mut taken = Vec::new(alloc);
    for i in 0..order.len() {
        let name = &order[i];
        match files.take(name) {
            Some(file) => taken.push(file)?,
            None => unreachable!(),
        }
    }
    Ok(taken)
}

/// The files that are reached from the roots, each once and after those that it stands on, in the
/// order in which a depth-first walk leaves them; or the first refusal that the walk comes to. A
/// file is read when the walk comes to its name: it stops where that gives no file, and where the
/// file does not fit. A name that stands on the present path is a cycle, and the 257th file is one
/// too many: these two are told of `file`. The file that is held was read before, from the same
/// files, and is not read again.
pub fn read_reached<K: WalkedKind, S: Shelf>(
    alloc: Global,
    kind: &K,
    file: &Text,
    held: Option<K::File>,
    roots: Vec<Text>,
    shelf: &mut S,
) -> Result<Vec<K::File>, StepError>
    requires stated { IfSome held (λ x. (K.kind kind.now).IsStated (K.says x)) }
    requires held { WhereTold (S.content shelf.now) (λ files. IfSome held (λ x.
        (K.kind kind.now).Reads files ((K.kind kind.now).name_of (K.says x)) (Ok (K.says x)))) }
    ensures step { WhereTold (S.content shelf.old) (λ files. Gives (λ xs. map K.says xs.items)
        (ReachesBy (K.kind kind.now) file.now roots.items files) result) }
    ensures sound { IfOk result (λ xs.
        AreFilesReached (K.kind kind.now) file.now roots.items (map K.says xs.items)) }
    ensures stated { IfOk result (λ xs.
        AllByRecursion (K.kind kind.now).IsStated (map K.says xs.items)) }
    ensures few { IfOk result (λ xs. length xs.items ≤ 256) }
    ensures reads { OnlyReads (S.content shelf.old) (S.content shelf.new)
        (S.read_faults shelf.old) (S.read_faults shelf.new)
        (S.write_faults shelf.old) (S.write_faults shelf.new) result }
{
    let mut files = begin(alloc, kind, held)?;
    match walk_files(alloc, kind, file, roots, &mut files, shelf) {
        Ok(order) => Ok(take_files(alloc, &order, &mut files)?),
        Err(e) => Err(e),
    }
}
