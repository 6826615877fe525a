//! New plain tables, and what a plain table has.

ghost use Rattle.std.specs.Prelude.{◌≡◌, ◌≤◌, MatchOption, Some, None, IfOk, IfSome, option_map};
ghost use Rattle.sx_term.specs.Tree.{depth_of};
ghost use Rattle.sx_term.specs.Term.{tree};
ghost use Rattle.sx_plain.specs.Tables.{IsPlainTable};
ghost use Rattle.sx_plain.specs.Entries.{body, bodies};
ghost use Rattle.sx_plain.specs.Views.{table_of};
ghost use Rattle.sx_term.specs.Limits.{most_depth};

use crate::entry::Entry;
use crate::table::PlainTable;
use std::alloc::Global;
use sx_term::{NoMemory, Term};

impl PlainTable {
    /// The table without entries. It takes no memory.
    pub fn new(alloc: Global, base: u32) -> PlainTable
        ensures base { result.base ≡ base }
        ensures none { table_of result ≡ λ _. None }
    {
        PlainTable {
            alloc,
            base,
            entries: Vec::new(alloc),
        }
    }

    /// An equal table. The one refusal is out of memory.
    pub fn copy(&self, alloc: Global) -> Result<PlainTable, NoMemory>
        ensures base { IfOk result (λ t. t.base ≡ self.now.base) }
        ensures table { IfOk result (λ t. table_of t ≡ table_of self.now) }
    {
        let entries = copy_entries(alloc, &self.entries)?;
        Ok(PlainTable {
            alloc,
            base: self.base,
            entries,
        })
    }

    /// The entry of the label, or None where it has none.
    pub(crate) fn entry(&self, label: u32) -> Option<&Entry>
        ensures { MatchOption result (table_of self.now label ≡ None)
            (λ e. table_of self.now label ≡ Some (body e.now)) }
    {
        if label < self.base {
            return None;
        }
        let place = (label - self.base) as usize;
        if place < self.entries.len() {
            return self.entries[place].as_ref();
        }
        None
    }

    /// What holds of every plain table: base labels have no entry, and each entry is flat and uses
    /// each of its parts.
    pub fn facts(&self)
        ensures { IsPlainTable self.now.base (table_of self.now) }
    {}

    /// The flat body of the label, or None exactly where it has no entry.
    pub fn flat(&self, label: u32) -> Option<&Term>
        ensures value { MatchOption result (table_of self.now label ≡ None)
            (λ t. option_map (λ b. b.flat) (table_of self.now label) ≡ Some (tree t.now)) }
        ensures depth { IfSome result (λ t. depth_of (tree t.now) ≤ most_depth) }
    {
        match self.entry(label) {
            Some(entry) => Some(&entry.flat),
            None => None,
        }
    }
}

/// Equal entries. The one refusal is out of memory.
fn copy_entries(alloc: Global, entries: &[Option<Entry>]) -> Result<Vec<Option<Entry>>, NoMemory>
    ensures { IfOk result (λ es. bodies es.items ≡ bodies entries.now) }
{
    let mut copies = Vec::with_capacity(alloc, entries.len())?;
    for entry in entries {
        copies.push(copy_entry(alloc, entry)?)?;
    }
    Ok(copies)
}

/// An equal entry, where there is one.
fn copy_entry(alloc: Global, entry: &Option<Entry>) -> Result<Option<Entry>, NoMemory>
    ensures { IfOk result (λ e. option_map body e ≡ option_map body entry.now) }
{
    match entry {
        Some(entry) => Ok(Some(entry.copy(alloc)?)),
        None => Ok(None),
    }
}
