//! What the makers reach from each place.

ghost use Rattle.std.specs.Prelude.{◌≡◌, ◌≤◌, ◌<◌, ℕ, Some, IfOk, IfSome, OnOk, length, slice_get};
ghost use Rattle.sx_forest.specs.declared.reach.Reach.{Reach};
ghost use Rattle.sx_forest.specs.declared.entry.Maker.{Maker};
ghost use Rattle.sx_forest.specs.Reached.{HasReach, reaches_at};
ghost use Rattle.sx_term.specs.Limits.{most_tokens};

use crate::entry::Maker;
use crate::reach::Reach;
use crate::stretch::{Stretch, with};
use std::alloc::Global;
use sx_term::NoMemory;

/// What is reached from each place: one item for each maker.
#[derive(Drop)]
pub(crate) struct Reaches {
    pub(crate) lists: Vec<Vec<Reach>>,
}

/// The index of the maker's item.
fn index_of(reaches: &[Reach], maker: Maker) -> Option<usize>
    ensures { IfSome result (λ i. (r : Reach) × (slice_get reaches.now i ≡ Some r) ×
        (r.maker ≡ maker)) }
{
    for index in 0..reaches.len() {
        if reaches[index].maker == maker {
            return Some(index);
        }
    }
    None
}

/// Notes that the maker reaches the place.
fn note(reaches: &mut Vec<Reach>, maker: Maker, place: u32) -> Result<(), NoMemory>
    requires { place ≤ most_tokens }
    ensures kept { (m : Maker) (p : ℕ) → HasReach reaches.old.items m p →
        HasReach reaches.new.items m p }
    ensures here { OnOk result (HasReach reaches.new.items maker place) }
{
    match index_of(reaches, maker) {
        Some(index) => {
            reaches[index].places = with(reaches[index].places, place);
            Ok(())
        }
        None => {
            let places = Stretch {
                first: place,
                end: place + 1,
            };
            reaches.push(Reach { maker, places })?;
            Ok(())
        }
    }
}

impl Reaches {
    /// Nothing is reached from any of so many places.
    pub(crate) fn blank(alloc: Global, count: usize) -> Result<Self, NoMemory>
        ensures { IfOk result (λ r. length r.lists.items ≡ count) }
    {
        let mut lists = Vec::new(alloc);
        for _ in 0..count {
            lists.push(Vec::new(alloc))?;
        }
        Ok(Reaches { lists })
    }

    /// What is reached from a place.
    pub(crate) fn at(&self, place: usize) -> &[Reach]
        ensures { result.now ≡ reaches_at self.now.lists.items place }
    {
        match self.lists.get(place) {
            None => &[],
            Some(reaches) => reaches,
        }
    }

    /// Notes that the maker reaches the other place from this one.
    pub(crate) fn put(&mut self, from: u32, maker: Maker, place: u32) -> Result<(), NoMemory>
        requires inside { from < length self.old.lists.items }
        requires short { place ≤ most_tokens }
        ensures same { length self.new.lists.items ≡ length self.old.lists.items }
        ensures kept { (q : ℕ) (m : Maker) (p : ℕ) →
            HasReach (reaches_at self.old.lists.items q) m p →
            HasReach (reaches_at self.new.lists.items q) m p }
        ensures here { OnOk result
            (HasReach (reaches_at self.new.lists.items from) maker place) }
    {
        note(&mut self.lists[from as usize], maker, place)
    }
}
