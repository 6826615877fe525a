//! The auditor that counts the nodes by named rules.

ghost use Rattle.std.specs.Prelude.{◌≡◌, ◌++◌, map, codes, IfOk};
ghost use Rattle.sx_audit.specs.Kinds.{tally_kind, of_counts, counts_text};
ghost use Rattle.sx_audit.specs.Rows.{row_names, counts_of, row_after};

use crate::auditor::Auditor;
use crate::row::{Row, count};
use crate::set_error::SetError;
use crate::settings::{are_distinct, names};
use crate::texts::{put_number, put_word};
use std::alloc::Global;
use sx_term::{NoMemory, Text};

/// Objects to no node, and counts those by each of its rules.
#[derive(Drop)]
pub struct Tally {
    pub(crate) alloc: Global,
    pub(crate) name: Text,
    pub(crate) rows: Vec<Row>,
}

/// A row for each name, without a node.
fn rows(alloc: Global, names: Vec<Text>) -> Result<Vec<Row>, NoMemory>
    ensures names { IfOk result (λ v. row_names v.items ≡ names.items) }
    ensures counts { IfOk result (λ v. counts_of v.items ≡ map (λ x. 0) names.items) }
{
    let mut rows = Vec::with_capacity(alloc, names.len())?;
    for name in names {
        rows.push(Row { name, count: 0 })?;
    }
    Ok(rows)
}

/// Counts a node by this rule in each row.
fn count_each(rows: &mut [Row], rule: &Text)
    ensures { rows.new ≡ map (row_after rule.now) rows.old }
{
    for row in rows.iter_mut() {
        count(row, rule);
    }
}

/// The names with their counts, after the kind's word.
fn rows_text(alloc: Global, rows: &[Row]) -> Result<Vec<u8>, NoMemory>
    ensures { IfOk result (λ v. v.items ≡ codes "tally"
        ++ counts_text (row_names rows.now) (counts_of rows.now)) }
{
    let mut made = Vec::new(alloc);
    made.extend_from_slice(b"tally")?;
    for row in rows {
        put_word(row.name.bytes(), &mut made)?;
        put_number(alloc, row.count, &mut made)?;
    }
    Ok(made)
}

impl Auditor for Tally {
    ghost meaning = { λ it. record {
      kind = tally_kind it.name;
      state = of_counts (row_names it.rows.items) (counts_of it.rows.items);
    } };

    fn name(&self) -> &Text {
        &self.name
    }

    fn set(&mut self, setting: &Text) -> Result<(), SetError> {
        match names(self.alloc, setting)? {
            Some(names) => {
                if !are_distinct(&names) {
                    return Err(SetError::Bad);
                }
                self.rows = rows(self.alloc, names)?;
                Ok(())
            }
            None => Err(SetError::Bad),
        }
    }

    fn see(&mut self, rule: &Text, _depth: u32) -> bool {
        count_each(&mut self.rows, rule);
        true
    }

    fn text(&self, alloc: Global, into: &mut Vec<u8>) -> Result<(), NoMemory> {
        let made = rows_text(alloc, &self.rows)?;
        into.extend_from_slice(&made)?;
        Ok(())
    }
}
