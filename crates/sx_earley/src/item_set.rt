//! Items, each once, that are found by their hashes.

ghost use Rattle.std.specs.Prelude.{◌≡◌, ℕ, ◌+◌, ◌-◌, ◌^◌, ◌<◌, List, [], OnOk, OnErr};
ghost use Rattle.std.specs.Prelude.{IsTrue, IsFalse, Contains, length, map, get_or, slice_get};
ghost use Rattle.sx_slots.specs.Slots.{slot_of, AreLinked, IsSlotTable};
ghost use Rattle.sx_grammar.specs.Tally.{EachOnce};
ghost use Rattle.sx_earley.specs.ItemSet.{IsItemAdded};
ghost use Rattle.sx_earley.specs.PackedItem.{unpacked, packed_hash};

use crate::packed_item::PackedItem;
use std::alloc::{AllocError, Global};
use std::marker::Model;
use sx_grammar::Item;

/// How many slots there are at first.
const FIRST_SLOTS: usize = 64;

/// Up to how many slots there are four times as many after them, and then twice as many.
const FEW_SLOTS: usize = 0x4_0000;

/// How many slots there are at most.
const MOST_SLOTS: usize = 0x8000_0000;

/// Items in the order in which they were added, each once. The hash of an item names its slot. Of
/// each slot the number of the last item in it is known, and of each item the one before it in its
/// slot: plus one, and 0 where there is none.
#[derive(Drop)]
pub(crate) struct ItemSet {
    items: Vec<PackedItem>,
    links: Vec<u32>,
    lasts: Vec<u32>,
}

impl Model for ItemSet {
    ghost use Rattle.std.specs.Prelude.{List, map};
    ghost use Rattle.sx_grammar.specs.declared.item.Item.{Item};
    ghost use Rattle.sx_earley.specs.ItemSet.{IsItemSet};
    ghost use Rattle.sx_earley.specs.PackedItem.{unpacked};

    ghost Value = { List Item };

    ghost view = { λ s. map unpacked s.items.items };

    ghost invariant = { λ s. IsItemSet s.items.items s.links.items s.lasts.items };
}

/// The slot of a hash, of so many.
#[inline(always)]
fn slot(hash: u32, slots: usize) -> usize
    requires { 0 < slots }
    ensures value { result ≡ slot_of slots hash }
    ensures within { result < slots }
{
    hash as usize & (slots - 1)
}

/// The number is put into the slot of its hash, and the number before it there is told.
#[inline(always)]
fn put(lasts: &mut [u32], hash: u32, number: usize) -> u32
    requires some { 0 < length lasts.old }
    requires few { number < 2 ^ 32 - 1 }
    ensures linked { (hs links : List ℕ) → get_or hs number 0 ≡ hash →
        get_or links number 0 ≡ result → AreLinked (length lasts.old) hs links lasts.old number →
        AreLinked (length lasts.old) hs links lasts.new (number + 1) }
    ensures lasts { length lasts.new ≡ length lasts.old }
{
    let slot = slot(hash, lasts.len());
    let before = lasts[slot];
    lasts[slot] = (number + 1) as u32;
    before
}

/// How many slots there are after so many.
fn more_slots(slots: usize) -> usize
    requires { slots < 2 ^ 31 }
    ensures more { slots < result }
    ensures few { result < 2 ^ 32 }
{
    if slots < FIRST_SLOTS {
        FIRST_SLOTS
    } else if slots < FEW_SLOTS {
        slots * 4
    } else {
        slots * 2
    }
}

/// All items are put into more slots, unless there would be too many.
#[cold]
#[inline(never)]
fn grow(
    alloc: Global,
    items: &[PackedItem],
    links: &mut [u32],
    lasts: &mut Vec<u32>,
) -> Result<(), AllocError>
    requires { IsSlotTable (map packed_hash items.now) links.old lasts.old.items }
    ensures table { IsSlotTable (map packed_hash items.now) links.new lasts.new.items }
    ensures room { OnOk result (length items.now < length lasts.new.items) }
{
    if lasts.len() >= MOST_SLOTS {
        return Err(AllocError);
    }
    let slots = more_slots(lasts.len());
    let mut wider = Vec::from_elem(alloc, 0, slots)?;
    for number in 0..items.len() {
        let hash = items[number].hash();
        links[number] = put(wider.as_mut_slice(), hash, number);
    }
    *lasts = wider;
    Ok(())
}

/// Makes room in the slots for one more item.
#[inline(always)]
fn make_room(
    alloc: Global,
    items: &[PackedItem],
    links: &mut [u32],
    lasts: &mut Vec<u32>,
) -> Result<(), AllocError>
    requires { IsSlotTable (map packed_hash items.now) links.old lasts.old.items }
    ensures table { IsSlotTable (map packed_hash items.now) links.new lasts.new.items }
    ensures room { OnOk result (length items.now < length lasts.new.items) }
{
    if items.len() < lasts.len() {
        return Ok(());
    }
    grow(alloc, items, links, lasts)
}

impl ItemSet {
    /// No items. It takes no memory.
    pub(crate) fn new(alloc: Global) -> ItemSet
        ensures { result ≡ [] }
    {
        ItemSet {
            items: Vec::new(alloc),
            links: Vec::new(alloc),
            lasts: Vec::new(alloc),
        }
    }

    /// How many items there are.
    #[inline(always)]
    pub(crate) fn len(&self) -> usize
        ensures len { result ≡ length self.now }
        ensures once { EachOnce self.now }
    {
        self.items.len()
    }

    /// The item at a place.
    #[inline(always)]
    pub(crate) fn get(&self, place: usize) -> Option<Item>
        ensures { result ≡ slice_get self.now place }
    {
        match self.items.get(place) {
            Some(packed) => Some(packed.unpack()),
            None => None,
        }
    }

    /// Whether the item, of which this is the hash, is there.
    #[inline(always)]
    fn has(&self, item: PackedItem, hash: u32) -> bool
        requires { hash ≡ packed_hash item }
        ensures yes { IsTrue result → Contains self.now (unpacked item) }
        ensures no { IsFalse result → Contains self.now (unpacked item) → ⊥ }
    {
        if self.lasts.is_empty() {
            return false;
        }
        let slot = slot(hash, self.lasts.len());
        let mut here = self.lasts[slot] as usize;
        while here > 0 {
            let other = self.items[here - 1];
            if other.is(item) {
                return true;
            }
            here = self.links[here - 1] as usize;
        }
        false
    }

    /// Adds the item, if it is not there. Where memory is lacking, or the numbers of the items or
    /// the item's dot would not fit into 32 bits, the items are as before.
    pub(crate) fn add(&mut self, item: Item) -> Result<(), AllocError>
        ensures ok { OnOk result (IsItemAdded item self.old self.new) }
        ensures err { OnErr result (self.new ≡ self.old) }
    {
        let Some(packed) = PackedItem::pack(item) else {
            return Err(AllocError);
        };
        let hash = packed.hash();
        if self.has(packed, hash) {
            return Ok(());
        }
        let alloc = *self.items.allocator();
        make_room(
            alloc,
            self.items.as_slice(),
            self.links.as_mut_slice(),
            &mut self.lasts,
        )?;
        self.links.reserve(1)?;
        self.items.reserve(1)?;
        let number = self.items.len();
        let link = put(self.lasts.as_mut_slice(), hash, number);
        self.items.push_reserved(packed);
        self.links.push_reserved(link);
        Ok(())
    }
}
