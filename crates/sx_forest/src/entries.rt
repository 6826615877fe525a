//! The table of entries.

ghost use Rattle.std.specs.Prelude.{◌≡◌, ◌≤◌, ◌<◌, ◌++◌, ◌∷◌, [], ℕ, IfErr, IfOk, OnOk, length};
ghost use Rattle.sx_forest.specs.Rows.{entries_at};
ghost use Rattle.sx_forest.specs.Reached.{AreReached};
ghost use Rattle.sx_term.specs.Limits.{most_tokens};

use crate::entry::Entry;
use crate::reaches::Reaches;
use std::alloc::Global;
use sx_term::NoMemory;

/// The entries that begin at each place; the ends that their makers reach from there, and the
/// places from which they reach each end.
#[derive(Drop)]
pub(crate) struct Entries {
    pub(crate) lists: Vec<Vec<Entry>>,
    pub(crate) ends: Reaches,
    pub(crate) starts: Reaches,
    ghost reached: { ∥ AreReached lists.items ends.lists.items starts.lists.items ∥₁ },
    ghost ends_long: { length ends.lists.items ≡ length lists.items },
    ghost starts_long: { length starts.lists.items ≡ length lists.items },
}

/// No entries from any of so many places.
fn no_entries(alloc: Global, count: usize) -> Result<Vec<Vec<Entry>>, NoMemory>
    ensures long { IfOk result (λ v. length v.items ≡ count) }
    ensures none { IfOk result (λ v. (place : ℕ) → entries_at v.items place ≡ []) }
{
    let mut lists = Vec::new(alloc);
    for _ in 0..count {
        lists.push(Vec::new(alloc))?;
    }
    Ok(lists)
}

/// Adds the entry to those from the place. Where memory is lacking, the lists are as before.
fn add(lists: &mut Vec<Vec<Entry>>, place: u32, entry: Entry) -> Result<(), NoMemory>
    requires { place < length lists.old.items }
    ensures same { length lists.new.items ≡ length lists.old.items }
    ensures there { OnOk result (entries_at lists.new.items place
        ≡ entries_at lists.old.items place ++ entry ∷ []) }
    ensures failed { IfErr result (λ _. entries_at lists.new.items place
        ≡ entries_at lists.old.items place) }
    ensures others { (p : ℕ) → (p ≡ place → ⊥) →
        entries_at lists.new.items p ≡ entries_at lists.old.items p }
{
    match lists[place as usize].push(entry) {
        Ok(_) => Ok(()),
        Err(_) => Err(NoMemory::Memory),
    }
}

impl Entries {
    /// The table without an entry, of so many places.
    pub(crate) fn blank(alloc: Global, count: usize) -> Result<Self, NoMemory>
        ensures long { IfOk result (λ t. length t.lists.items ≡ count) }
        ensures none { IfOk result (λ t. (place : ℕ) → entries_at t.lists.items place ≡ []) }
    {
        let lists = no_entries(alloc, count)?;
        let ends = Reaches::blank(alloc, count)?;
        let starts = Reaches::blank(alloc, count)?;
        Ok(Entries {
            lists,
            ends,
            starts,
        })
    }

    /// The entries from a place.
    pub(crate) fn from(&self, place: u32) -> &[Entry]
        ensures { result.now ≡ entries_at self.now.lists.items place }
    {
        match self.lists.get(place as usize) {
            None => &[],
            Some(entries) => entries,
        }
    }

    /// Adds the entry to those from the place. Where memory is lacking, they are as before.
    pub(crate) fn put(&mut self, place: u32, entry: Entry) -> Result<(), NoMemory>
        requires along { place ≤ entry.to }
        requires inside { entry.to < length self.old.lists.items }
        requires short { entry.to ≤ most_tokens }
        ensures same { length self.new.lists.items ≡ length self.old.lists.items }
        ensures there { OnOk result (entries_at self.new.lists.items place
            ≡ entries_at self.old.lists.items place ++ entry ∷ []) }
        ensures others { (p : ℕ) → (p ≡ place → ⊥) →
            entries_at self.new.lists.items p ≡ entries_at self.old.lists.items p }
    {
        self.ends.put(place, entry.maker, entry.to)?;
        self.starts.put(entry.to, entry.maker, place)?;
        add(&mut self.lists, place, entry)
    }
}
