//! The table before any span is counted.

ghost use Rattle.std.specs.Prelude.{◌≡◌, ◌≤◌, ◌<◌, ◌+◌, ◌↔◌, ℕ, [], Some, IfOk, OnOk, length};
ghost use Rattle.sx_grammar.specs.Grammar.{is_variable, of_sort};
ghost use Rattle.sx_grammar.specs.Reading.{Marked};
ghost use Rattle.sx_grammar.specs.Tables.{GrammarData};
ghost use Rattle.sx_earley.specs.Shown.{tokens_of};
ghost use Rattle.sx_forest.specs.Rows.{entries_at};
ghost use Rattle.sx_forest.specs.Table.{IsFirstList, IsFirstTable};
ghost use Rattle.sx_term.specs.Limits.{most_tokens};

use crate::entries::Entries;
use crate::entry::{Entry, Maker};
use crate::ways::Ways;
use std::alloc::Global;
use sx_earley::Shown;
use sx_term::NoMemory;

/// The sort of the metavariable at the place, if it stands for a term.
pub(crate) fn variable_at(shown: &[Shown], place: usize) -> Option<u32>
    ensures { (d : GrammarData) (sort : ℕ) →
        (result ≡ Some sort) ↔ Marked (tokens_of d shown.now) place (is_variable (of_sort sort)) }
{
    match shown.get(place) {
        Some(token) => match token {
            Shown::Sort(sort) => Some(*sort),
            _ => None,
        },
        None => None,
    }
}

/// Adds the entry of the metavariable that stands at the place, if one does.
fn add_variable(table: &mut Entries, shown: &[Shown], place: usize) -> Result<(), NoMemory>
    requires inside { place < length shown.now }
    requires short { length shown.now ≤ most_tokens }
    requires long { length table.old.lists.items ≡ length shown.now + 1 }
    requires none { entries_at table.old.lists.items place ≡ [] }
    ensures same { length table.new.lists.items ≡ length table.old.lists.items }
    ensures there { OnOk result ((d : GrammarData) →
        IsFirstList (tokens_of d shown.now) place (entries_at table.new.lists.items place)) }
    ensures others { (p : ℕ) → (p ≡ place → ⊥) →
        entries_at table.new.lists.items p ≡ entries_at table.old.lists.items p }
{
    match variable_at(shown, place) {
        Some(sort) => table.put(
            place as u32,
            Entry {
                maker: Maker::Variable(sort),
                to: place as u32 + 1,
                ways: Ways::One(1),
            },
        ),
        None => Ok(()),
    }
}

/// The entries before any span is counted, from each place.
pub(crate) fn first_entries(alloc: Global, shown: &[Shown]) -> Result<Entries, NoMemory>
    requires { length shown.now ≤ most_tokens }
    ensures { IfOk result (λ t. (d : GrammarData) →
        IsFirstTable (tokens_of d shown.now) (length shown.now + 1) t.lists.items) }
{
    let mut table = Entries::blank(alloc, shown.len() + 1)?;
    for place in 0..shown.len() {
        add_variable(&mut table, shown, place)?;
    }
    Ok(table)
}
