//! Items in little room.

ghost use Rattle.std.specs.Prelude.{◌≡◌, IsTrue, IsFalse};
ghost use Rattle.sx_earley.specs.PackedItem.{unpacked, packed_hash, IsPacked};

use sx_grammar::{Head, Item};
use sx_slots::{folded, mix};

/// The greatest dot that has room.
const MOST_DOT: usize = 0x7fff_ffff;

/// By what the upper one of two numbers that are put together is multiplied.
const UPPER: u64 = 0x1_0000_0000;

/// An item in 16 bytes: the number of the production, or of the sort that stands in brackets; the
/// dot twice, plus one where the sort does; and the places.
#[derive(Clone, Copy)]
pub(crate) struct PackedItem {
    number: u32,
    shape: u32,
    origin: u32,
    end: u32,
}

impl PackedItem {
    /// The item in little room, or None where its dot has none.
    #[inline(always)]
    pub(crate) fn pack(item: Item) -> Option<PackedItem>
        ensures { IsPacked item result }
    {
        if item.dot > MOST_DOT {
            return None;
        }
        let dot = item.dot as u32 * 2;
        Some(match item.head {
            Head::Labelled(label) => PackedItem {
                number: label,
                shape: dot,
                origin: item.origin,
                end: item.end,
            },
            Head::Bracketed(sort) => PackedItem {
                number: sort,
                shape: dot + 1,
                origin: item.origin,
                end: item.end,
            },
        })
    }

    /// The item.
    #[inline(always)]
    pub(crate) fn unpack(self) -> Item
        ensures { result ≡ unpacked self }
    {
        let head = if self.shape % 2 == 0 {
            Head::Labelled(self.number)
        } else {
            Head::Bracketed(self.number)
        };
        Item {
            head,
            dot: (self.shape / 2) as usize,
            origin: self.origin,
            end: self.end,
        }
    }

    /// The hash of the item.
    #[inline(always)]
    pub(crate) fn hash(self) -> u32
        ensures { result ≡ packed_hash self }
    {
        let dotted = self.shape as u64 * UPPER + self.number as u64;
        let span = self.origin as u64 * UPPER + self.end as u64;
        folded(mix(dotted, span))
    }

    /// Whether the items are the same.
    #[inline(always)]
    pub(crate) fn is(self, other: PackedItem) -> bool
        ensures yes { IsTrue result → self ≡ other }
        ensures no { IsFalse result → self ≡ other → ⊥ }
    {
        self.origin == other.origin
            && self.end == other.end
            && self.shape == other.shape
            && self.number == other.number
    }
}
