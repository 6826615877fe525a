//! Numbers in slots, each found by its hash.

ghost use Rattle.std.specs.Prelude.{◌≡◌, ℕ, ◌+◌, ◌^◌, ◌<◌, ◌≤◌, List, [], ◌∷◌, ◌++◌, OnOk, OnErr};
ghost use Rattle.std.specs.Prelude.{length, take, min, get_or};
ghost use Rattle.sx_slots.specs.Slots.{slot_of, IsLast, AreLinked, IsLastWith};

use std::alloc::{AllocError, Global};
use std::marker::Model;

/// How many slots there are at first.
const FIRST_SLOTS: usize = 64;

/// How many slots there are at most.
const MOST_SLOTS: usize = 0x8000_0000;

/// The numbers 0, 1, 2 and so on, each with its hash, by which it is found. The hash of a number
/// names its slot. Of each slot the last number in it is known, and of each number the one before
/// it in its slot: plus one, and 0 where there is none.
#[derive(Drop)]
pub struct Slots {
    hashes: Vec<u32>,
    links: Vec<u32>,
    lasts: Vec<u32>,
}

impl Model for Slots {
    ghost use Rattle.std.specs.Prelude.{List, ℕ};
    ghost use Rattle.sx_slots.specs.Slots.{IsSlotTable};

    ghost Value = { List ℕ };

    ghost view = { λ s. s.hashes.items };

    ghost invariant = { λ s. IsSlotTable s.hashes.items s.links.items s.lasts.items };
}

/// The slot of a hash, of so many.
#[inline(always)]
fn slot(hash: u32, slots: usize) -> usize
    requires { 0 < slots }
    ensures value { result ≡ slot_of slots hash }
    ensures within { result < slots }
{
    hash as usize & (slots - 1)
}

/// The number is put into its slot.
#[inline(always)]
fn link(hashes: &[u32], links: &mut [u32], lasts: &mut [u32], number: usize)
    requires number { number < length hashes.now }
    requires room { length hashes.now ≤ length lasts.old }
    requires few { length lasts.old < 2 ^ 32 }
    requires links { length links.old ≡ length hashes.now }
    requires linked { AreLinked (length lasts.old) hashes.now links.old lasts.old number }
    ensures linked { AreLinked (length lasts.old) hashes.now links.new lasts.new (number + 1) }
    ensures links { length links.new ≡ length links.old }
    ensures lasts { length lasts.new ≡ length lasts.old }
{
    let slot = slot(hashes[number], lasts.len());
    links[number] = lasts[slot];
    lasts[slot] = (number + 1) as u32;
}

/// All numbers are put into more slots, unless there would be too many.
#[cold]
#[inline(never)]
fn grow(
    alloc: Global,
    hashes: &[u32],
    links: &mut [u32],
    lasts: &mut Vec<u32>,
) -> Result<(), AllocError>
    requires few { length lasts.old.items < 2 ^ 32 }
    requires links { length links.old ≡ length hashes.now }
    requires full { length lasts.old.items ≡ length hashes.now }
    requires linked { AreLinked (length lasts.old.items) hashes.now links.old lasts.old.items
        (length hashes.now) }
    ensures linked { AreLinked (length lasts.new.items) hashes.now links.new lasts.new.items
        (length hashes.now) }
    ensures links { length links.new ≡ length links.old }
    ensures grows { length lasts.old.items ≤ length lasts.new.items }
    ensures few { length lasts.new.items < 2 ^ 32 }
    ensures room { OnOk result (length hashes.now < length lasts.new.items) }
{
    if lasts.len() >= MOST_SLOTS {
        return Err(AllocError);
    }
    let slots = (lasts.len() * 2).max(FIRST_SLOTS);
    let mut wider = Vec::from_elem(alloc, 0, slots)?;
    for number in 0..hashes.len() {
        link(hashes, links, wider.as_mut_slice(), number);
    }
    *lasts = wider;
    Ok(())
}

/// The numbers past the first so many are taken out of their slots.
fn unlink(hashes: &[u32], links: &[u32], lasts: &mut [u32], many: usize)
    requires room { length hashes.now ≤ length lasts.old }
    requires links { length links.now ≡ length hashes.now }
    requires linked { AreLinked (length lasts.old) hashes.now links.now lasts.old
        (length hashes.now) }
    ensures linked { AreLinked (length lasts.old) hashes.now links.now lasts.new
        (min many (length hashes.now)) }
    ensures lasts { length lasts.new ≡ length lasts.old }
{
    let mut number = hashes.len();
    while number > many {
        number -= 1;
        let slot = slot(hashes[number], lasts.len());
        lasts[slot] = links[number];
    }
}

/// The last number with the hash, from one on backwards in its slot.
#[inline(always)]
fn sought(hashes: &[u32], links: &[u32], from: u32, hash: u32) -> Option<usize>
    requires links { length links.now ≡ length hashes.now }
    requires back { (i : ℕ) → i < length hashes.now → get_or links.now i 0 ≤ i }
    requires from { from ≤ length hashes.now }
    ensures { (n k : ℕ) (lasts : List ℕ) → k ≤ length hashes.now →
        AreLinked n hashes.now links.now lasts (length hashes.now) →
        IsLast n hashes.now k (slot_of n hash) from → IsLastWith hashes.now k hash result }
{
    let mut here = from as usize;
    while here > 0 {
        if hashes[here - 1] == hash {
            return Some(here - 1);
        }
        here = links[here - 1] as usize;
    }
    None
}

impl Slots {
    /// No numbers. It takes no memory.
    pub fn new(alloc: Global) -> Slots
        ensures { result ≡ [] }
    {
        Slots {
            hashes: Vec::new(alloc),
            links: Vec::new(alloc),
            lasts: Vec::new(alloc),
        }
    }

    /// The last number with the hash, or None where no number has it.
    #[inline(always)]
    pub fn last(&self, hash: u32) -> Option<usize>
        ensures { IsLastWith self.now (length self.now) hash result }
    {
        if self.lasts.is_empty() {
            return None;
        }
        let slot = slot(hash, self.lasts.len());
        sought(
            self.hashes.as_slice(),
            self.links.as_slice(),
            self.lasts[slot],
            hash,
        )
    }

    /// The last number before this one with the same hash, or None where no number before it has
    /// it.
    #[inline(always)]
    pub fn before(&self, number: usize) -> Option<usize>
        requires { number < length self.now }
        ensures { IsLastWith self.now number (get_or self.now number 0) result }
    {
        sought(
            self.hashes.as_slice(),
            self.links.as_slice(),
            self.links[number],
            self.hashes[number],
        )
    }

    /// One more number, the last, which has this hash. Where memory is lacking, or the numbers
    /// would not fit into 32 bits, they are as before. The error is that of `std`, as this crate
    /// uses no other.
    #[inline(always)]
    pub fn push(&mut self, hash: u32) -> Result<(), AllocError>
        ensures ok { OnOk result (self.new ≡ self.old ++ hash ∷ []) }
        ensures err { OnErr result (self.new ≡ self.old) }
    {
        let number = self.hashes.len();
        if number == self.lasts.len() {
            let alloc = *self.hashes.allocator();
            grow(
                alloc,
                self.hashes.as_slice(),
                self.links.as_mut_slice(),
                &mut self.lasts,
            )?;
        }
        self.links.reserve(1)?;
        self.hashes.reserve(1)?;
        self.hashes.push_reserved(hash);
        self.links.push_reserved(0);
        link(
            self.hashes.as_slice(),
            self.links.as_mut_slice(),
            self.lasts.as_mut_slice(),
            number,
        );
        Ok(())
    }

    /// Drops the numbers past the first so many.
    pub fn truncate(&mut self, many: usize)
        ensures { self.new ≡ take many self.old }
    {
        unlink(
            self.hashes.as_slice(),
            self.links.as_slice(),
            self.lasts.as_mut_slice(),
            many,
        );
        self.hashes.truncate(many);
        self.links.truncate(many);
    }
}
