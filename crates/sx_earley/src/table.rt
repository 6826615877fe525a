//! Rows by place and sort.

ghost use Rattle.std.specs.Prelude.{◌≡◌, ◌⊎◌, ◌++◌, ◌∷◌, OnOk, []};
ghost use Rattle.sx_earley.specs.Table.{row_at};
ghost use Rattle.sx_earley.specs.declared.slot.Slot.{Slot};

use crate::slot::Slot;
use std::alloc::Global;
use std::collections::HashMap;
use sx_term::NoMemory;

/// Rows by place and sort.
#[derive(Drop)]
pub(crate) struct Table<T> {
    pub rows: HashMap<Slot, Vec<T>>,
}

impl<T: Copy> Table<T> {
    /// No rows. It takes no memory.
    pub(crate) fn new(alloc: Global) -> Table<T>
        ensures { (s : Slot) → row_at result s ≡ [] }
    {
        Table {
            rows: HashMap::new(alloc),
        }
    }

    /// Adds the element to the row of the slot.
    pub(crate) fn file(&mut self, alloc: Global, slot: Slot, element: T) -> Result<(), NoMemory>
        ensures row { OnOk result (row_at self.new slot ≡ row_at self.old slot ++ element ∷ []) }
        ensures rows { OnOk result ((s : Slot) →
            (row_at self.new s ≡ row_at self.old s) ⊎ (s ≡ slot)) }
    {
        if let Some(row) = self.rows.get_mut(&slot) {
            row.push(element)?;
            return Ok(());
        }
        let mut row = Vec::new(alloc);
        row.push(element)?;
        self.rows.insert(slot, row)?;
        Ok(())
    }

    /// The row of the slot.
    pub(crate) fn row(&self, slot: Slot) -> &[T]
        ensures { result.now ≡ row_at self.now slot }
    {
        match self.rows.get(&slot) {
            Some(row) => row,
            None => &[],
        }
    }
}
