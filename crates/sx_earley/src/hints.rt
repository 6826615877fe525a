//! Where items were found.

ghost use Rattle.std.specs.Prelude.{◌≡◌, ◌≤◌, ◌<◌, IsTrue, IsFalse, Contains};

use crate::item_set::ItemSet;
use std::alloc::{AllocError, Global};
use sx_grammar::{Head, Item};

/// The greatest place that is kept.
const MOST_PLACE: usize = 0x7fff_ffff;

/// The places of some items among those that are found. A right one spares a search, and a wrong
/// one costs nothing but the look.
#[derive(Drop)]
pub(crate) struct Hints {
    places: Vec<u32>,
}

/// The number of the head's production, or of its sort.
#[inline(always)]
fn number_in(head: Head) -> u32 {
    match head {
        Head::Labelled(label) => label,
        Head::Bracketed(sort) => sort,
    }
}

/// Where the place of the item is kept. Items with other ends may share it.
#[inline(always)]
fn slot_of(item: Item) -> usize {
    item.origin as usize * 16 + item.dot % 4 * 4 + (number_in(item.head) % 4) as usize
}

/// Whether the heads are the same.
#[inline(always)]
fn is_same_head(one: Head, other: Head) -> bool
    ensures yes { IsTrue result → one ≡ other }
    ensures no { IsFalse result → one ≡ other → ⊥ }
{
    match (one, other) {
        (Head::Labelled(a), Head::Labelled(b)) => a == b,
        (Head::Bracketed(a), Head::Bracketed(b)) => a == b,
        _ => false,
    }
}

/// Whether the items are the same.
#[inline(always)]
fn is_same(one: Item, other: Item) -> bool
    ensures yes { IsTrue result → one ≡ other }
    ensures no { IsFalse result → one ≡ other → ⊥ }
{
    one.origin == other.origin
        && one.end == other.end
        && one.dot == other.dot
        && is_same_head(one.head, other.head)
}

/// Whether the item is found at the place.
#[inline(always)]
fn is_at(found: &ItemSet, place: usize, item: Item) -> bool
    ensures { IsTrue result → Contains found.now item }
{
    match found.get(place) {
        None => false,
        Some(other) => is_same(other, item),
    }
}

impl Hints {
    /// No hints, for items that begin at the first places, so many.
    pub(crate) fn new(alloc: Global, origins: usize) -> Result<Hints, AllocError>
        requires { origins ≤ 10001 }
    {
        Ok(Hints {
            places: Vec::from_elem(alloc, 0, origins * 16)?,
        })
    }

    /// Whether the item is found where it is said to be.
    #[inline(always)]
    pub(crate) fn is_right(&self, found: &ItemSet, item: Item) -> bool
        ensures { IsTrue result → Contains found.now item }
    {
        match self.places.get(slot_of(item)) {
            None => false,
            Some(place) => is_at(found, *place as usize, item),
        }
    }

    /// Keeps the place of the item, unless it is too great.
    pub(crate) fn note(&mut self, item: Item, place: usize) {
        if place > MOST_PLACE {
            return;
        }
        if let Some(hint) = self.places.get_mut(slot_of(item)) {
            *hint = place as u32;
        }
    }
}
