//! Adding entries to plain tables.

ghost use Rattle.std.specs.Prelude.{◌≡◌, ℕ, ◌<◌, ◌≤◌, OnOk, OnErr, None, Some, if◌then◌else◌};
ghost use Rattle.sx_term.specs.Tree.{depth_of};
ghost use Rattle.sx_term.specs.Term.{tree};
ghost use Rattle.sx_term.specs.Instances.{Stands};
ghost use Rattle.sx_plain.specs.Tables.{IsFlat, FitsTable};
ghost use Rattle.sx_plain.specs.Entries.{body};
ghost use Rattle.sx_plain.specs.Views.{table_of};
ghost use Rattle.sx_plain.specs.Adds.{with_entry, uncovered, first_uncovered, IsBodyAdded};
ghost use Rattle.sx_term.specs.Limits.{most_depth};

use crate::dropped::first_dropped;
use crate::entry::Entry;
use crate::lowering::lower;
use crate::plain_error::PlainError;
use crate::table::PlainTable;
use sx_term::{NoMemory, Term, TermError};

/// Whether the label is base or has an entry.
fn is_known(table: &PlainTable, label: u32) -> bool
    ensures { uncovered table.now.base (table_of table.now label) label
        ≡ (if result then None else Some label) }
{
    label < table.base || table.entry(label).is_some()
}

/// The first label of the term, in preorder, that is not base and has no entry, or None where each
/// label is base or has one.
pub fn first_later(table: &PlainTable, term: &Term) -> Option<u32>
    requires { depth_of (tree term.now) ≤ most_depth }
    ensures { result ≡ first_uncovered table.now.base (table_of table.now) (tree term.now) }
{
    match term {
        Term::Node { label, kids } => {
            if !is_known(table, *label) {
                return Some(*label);
            }
            for kid in kids {
                if let Some(found) = first_later(table, kid) {
                    return Some(found);
                }
            }
            None
        }
        Term::Lex { kind: _, text: _ } => None,
        Term::Var(_) => None,
    }
}

impl PlainTable {
    /// Adds the flat body of the label: the plain image of the term, in which variable n is part n
    /// of the constructor. It is refused as Twice where the label has an entry; as UsesLater at the
    /// first label of the term, in preorder, that is not base and has none; as Drops at the first
    /// part that does not stand in the term; and as TooDeep or TooBig where the flat body passes
    /// the limits. The first of these is answered. After a refusal the table is as before.
    pub fn add(&mut self, label: u32, arity: u32, term: Term) -> Result<(), PlainError>
        requires not_base { self.old.base ≤ label }
        requires parts { (v : ℕ) → Stands v (tree term) → v < arity }
        requires fits { FitsTable (table_of self.old) (tree term) }
        requires shallow { depth_of (tree term) ≤ most_depth }
        ensures answer { IsBodyAdded self.old.base (table_of self.old)
            (table_of self.new) label arity
            (tree term) result }
        ensures err { OnErr result (table_of self.new ≡ table_of self.old) }
        ensures base { self.new.base ≡ self.old.base }
    {
        if self.entry(label).is_some() {
            drop(term);
            return Err(PlainError::Twice(label));
        }
        if let Some(later) = first_later(self, &term) {
            drop(term);
            return Err(PlainError::UsesLater(later));
        }
        if let Some(part) = first_dropped(self.alloc, &term, arity)? {
            drop(term);
            return Err(PlainError::Drops(part));
        }
        match lower(self.alloc, self, &term) {
            Ok(flat) => {
                let entry = Entry::new(self.alloc, arity, flat)?;
                self.put(label, entry)?;
                Ok(())
            }
            Err(TermError::TooDeep(depth)) => {
                drop(term);
                Err(PlainError::TooDeep(depth))
            }
            Err(TermError::TooBig(nodes)) => {
                drop(term);
                Err(PlainError::TooBig(nodes))
            }
            Err(TermError::Memory) => {
                drop(term);
                Err(PlainError::Memory)
            }
        }
    }

    /// Puts the entry at the label, which has none.
    fn put(&mut self, label: u32, entry: Entry) -> Result<(), NoMemory>
        requires not_base { self.old.base ≤ label }
        requires none { table_of self.old label ≡ None }
        requires flat { ∥ IsFlat self.old.base (body entry) ∥₁ }
        ensures ok { OnOk result ((other : ℕ) →
            table_of self.new other ≡ with_entry (table_of self.old) label (body entry) other) }
        ensures err { OnErr result (table_of self.new ≡ table_of self.old) }
        ensures base { self.new.base ≡ self.old.base }
    {
        let place = (label - self.base) as usize;
        for _ in self.entries.len()..place {
            self.entries.push(None)?;
        }
        if place < self.entries.len() {
            self.entries[place] = Some(entry);
            return Ok(());
        }
        self.entries.push(Some(entry))?;
        Ok(())
    }
}
