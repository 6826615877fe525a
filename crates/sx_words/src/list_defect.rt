//! Derivation lists that fit nothing.

ghost use Rattle.std.specs.Prelude.{◌≡◌, ◌++◌, OnOk};
ghost use Rattle.sx_words.specs.RefusalText.{list_defect_text};

use crate::parts::{put_number, put_words};
use std::alloc::Global;
use sx_term::NoMemory;

/// Why a derivation list fits no derivation. Entries are counted from 1.
#[derive(Drop)]
pub enum ListDefect {
    /// The first entry that fits no derivation.
    WrongAt(u64),
    /// A derivation wants more entries.
    EndsEarly,
    /// The first entry after the derivation.
    LongList(u64),
    /// The first entry that stands too deep.
    DeepList(u64),
}

/// Appends the defect's text.
pub(crate) fn put_list(
    alloc: Global,
    defect: &ListDefect,
    into: &mut Vec<u8>,
) -> Result<(), NoMemory>
    ensures { OnOk result (into.new.items ≡ into.old.items ++ list_defect_text defect.now) }
{
    match defect {
        ListDefect::WrongAt(n) => put_number(alloc, b"entry ", *n, b" fits no derivation", into),
        ListDefect::EndsEarly => put_words(b"list ends early", into),
        ListDefect::LongList(n) => put_number(alloc, b"entry ", *n, b" is left over", into),
        ListDefect::DeepList(n) => put_number(alloc, b"entry ", *n, b" is deeper than 3000", into),
    }
}
