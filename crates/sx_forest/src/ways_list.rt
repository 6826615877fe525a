//! Lists of ways whose first one takes no memory.

ghost use Rattle.std.specs.Prelude.{◌≡◌, ◌≤◌, ◌-◌, ◌^◌, ◌++◌, ◌∷◌, [], ◌↔◌, IsTrue, OnOk, length};
ghost use Rattle.std.specs.Prelude.{take, replicate};
ghost use Rattle.sx_forest.specs.Listed.{tally_of, ways_at};

use crate::ways::Ways;
use std::alloc::Global;
use std::marker::Model;
use sx_term::NoMemory;

/// A list of ways. One alone takes no memory.
#[derive(Drop)]
pub(crate) struct WaysList {
    first: Option<Ways>,
    others: Vec<Ways>,
}

impl Model for WaysList {
    ghost use Rattle.std.specs.Prelude.{List};
    ghost use Rattle.sx_forest.specs.declared.ways.Ways.{Ways};
    ghost use Rattle.sx_forest.specs.Listed.{with_first, IsBehind};

    ghost Value = { List Ways };

    ghost view = { λ l. with_first l.first l.others.items };

    ghost invariant = { λ l. IsBehind l.first l.others.items };
}

impl WaysList {
    /// No ways.
    pub(crate) fn new(alloc: Global) -> Self
        ensures { result ≡ [] }
    {
        WaysList {
            first: None,
            others: Vec::new(alloc),
        }
    }

    /// These alone.
    pub(crate) fn of(alloc: Global, ways: Ways) -> Self
        ensures { result ≡ ways ∷ [] }
    {
        WaysList {
            first: Some(ways),
            others: Vec::new(alloc),
        }
    }

    /// How many there are.
    pub(crate) fn len(&self) -> usize
        ensures len { result ≡ length self.now }
        ensures short { result ≤ 2 ^ 63 }
    {
        match self.first {
            None => 0,
            Some(_) => self.others.len() + 1,
        }
    }

    /// Whether there are none.
    pub(crate) fn is_empty(&self) -> bool
        ensures { IsTrue result ↔ (self.now ≡ []) }
    {
        self.first.is_none()
    }

    /// The ways with this number, none past the last.
    pub(crate) fn numbered(&self, number: usize) -> Ways
        ensures { tally_of result ≡ ways_at self.now number }
    {
        match self.first {
            None => Ways::Nothing,
            Some(first) => {
                if number == 0 {
                    return first;
                }
                match self.others.get(number - 1) {
                    None => Ways::Nothing,
                    Some(ways) => *ways,
                }
            }
        }
    }

    /// Adds ways behind the others.
    pub(crate) fn push(&mut self, ways: Ways) -> Result<(), NoMemory>
        ensures items { OnOk result (self.new ≡ self.old ++ ways ∷ []) }
    {
        match self.first {
            None => {
                self.first = Some(ways);
                Ok(())
            }
            Some(_) => {
                self.others.push(ways)?;
                Ok(())
            }
        }
    }

    /// Takes all away.
    pub(crate) fn clear(&mut self)
        ensures { self.new ≡ [] }
    {
        self.first = None;
        self.others.clear();
    }

    /// Cuts the list to so many, or fills it up with these ways.
    pub(crate) fn resize(&mut self, count: usize, ways: Ways) -> Result<(), NoMemory>
        requires some { 1 ≤ length self.old }
        requires kept { 1 ≤ count }
        ensures items { OnOk result
            (self.new ≡ take count self.old ++ replicate (count - length self.old) ways) }
        ensures len { OnOk result (length self.new ≡ count) }
    {
        self.others.resize(count - 1, ways)?;
        Ok(())
    }
}
