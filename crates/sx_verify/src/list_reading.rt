//! The step that reads a derivation list.

ghost use Rattle.std.specs.Prelude.{◌≤◌, IfOk, length};
ghost use Rattle.sx_outside.specs.Told.{WhereTold};
ghost use Rattle.sx_rules.specs.RuleNames.{AreNames};
ghost use Rattle.sx_rules.specs.Sets.{names_in};
ghost use Rattle.sx_steps.specs.Stop.{Gives, OnlyReads, IsNoFault};
ghost use Rattle.sx_verify.specs.Lists.{StatesEntries, ReadsEntries};

use crate::replay_stops::bad_entry;
use std::alloc::Global;
use sx_outside::Shelf;
use sx_rules::{Entry, ListError, RuleSet, read_list};
use sx_steps::{MOST_LIST_BYTES, StepError, read_file};
use sx_term::Text;

/// The list that the bytes state.
fn state_entries(
    alloc: Global,
    file: &Text,
    rules: &RuleSet,
    bytes: &[u8],
) -> Result<Vec<Entry>, StepError>
    requires names { AreNames (names_in rules.now) }
    requires short { length bytes.now ≤ 67108864 }
    ensures step { Gives (λ list. list.items)
        (StatesEntries file.now (names_in rules.now) bytes.now) result }
    ensures few { IfOk result (λ list. length list.items ≤ 67108864) }
    ensures no_fault { IsNoFault result }
{
    match read_list(alloc, rules, bytes) {
        Ok(list) => Ok(list),
        Err(ListError::Memory) => Err(StepError::Memory),
        Err(ListError::BadList(line)) => match bad_entry(alloc, file, line) {
            Ok(stop) => Err(StepError::Stopped(stop)),
            Err(_) => Err(StepError::Memory),
        },
    }
}

/// The list in the file.
pub fn read_entries<S: Shelf>(
    alloc: Global,
    file: &Text,
    rules: &RuleSet,
    shelf: &mut S,
) -> Result<Vec<Entry>, StepError>
    requires { AreNames (names_in rules.now) }
    ensures step { WhereTold (S.content shelf.old)
        (λ files. Gives (λ list. list.items) (ReadsEntries file.now (names_in rules.now) files)
        result) }
    ensures few { IfOk result (λ list. length list.items ≤ 67108864) }
    ensures reads { OnlyReads (S.content shelf.old) (S.content shelf.new)
        (S.read_faults shelf.old) (S.read_faults shelf.new)
        (S.write_faults shelf.old) (S.write_faults shelf.new) result }
{
    match read_file(alloc, file, MOST_LIST_BYTES, shelf) {
        Ok(bytes) => state_entries(alloc, file, rules, &bytes),
        Err(e) => Err(e),
    }
}
