//! The keys under which the numbers of items are filed.

ghost use Rattle.std.specs.Prelude.{◌≡◌, ◌<◌, [], OnOk, length, get_or};
ghost use Rattle.sx_earley.specs.Keys.{waiting_key, complete_key, before_key, filling_key};
ghost use Rattle.sx_earley.specs.Keys.{own_key, IsAddedTo};

use std::alloc::{AllocError, Global};
use sx_grammar::Item;
use sx_slots::{Slots, folded, mix};

/// The numbers of the items that wait for a part or have made a sort, each with its key.
#[derive(Drop)]
pub(crate) struct Filed {
    pub(crate) numbers: Vec<u32>,
    pub(crate) keys: Slots,
}

impl Filed {
    /// No numbers. It takes no memory.
    pub(crate) fn new(alloc: Global) -> Filed
        ensures keys { result.keys ≡ [] }
        ensures numbers { result.numbers.items ≡ [] }
    {
        Filed {
            numbers: Vec::new(alloc),
            keys: Slots::new(alloc),
        }
    }

    /// Files the number under the key, if there is one.
    #[inline(always)]
    pub(crate) fn file(&mut self, key: Option<u32>, number: u32) -> Result<(), AllocError>
        ensures { OnOk result (IsAddedTo key number self.old self.new) }
    {
        if let Some(key) = key {
            self.numbers.push(number)?;
            self.keys.push(key)?;
        }
        Ok(())
    }

    /// The number at the place.
    #[inline(always)]
    pub(crate) fn number(&self, place: usize) -> u32
        requires { place < length self.now.numbers.items }
        ensures { result ≡ get_or self.now.numbers.items place 0 }
    {
        self.numbers[place]
    }
}

/// The key of items that wait at the place for a part of the sort.
#[inline(always)]
fn waiting_key(place: u32, sort: u32) -> u32
    ensures { result ≡ waiting_key place sort }
{
    folded(mix(mix(1, place as u64), sort as u64))
}

/// The key of complete items of the sort that begin at the place.
#[inline(always)]
fn complete_key(place: u32, sort: u32) -> u32
    ensures { result ≡ complete_key place sort }
{
    folded(mix(mix(2, place as u64), sort as u64))
}

/// The key of the item: that of the part for which it waits, or of the sort that it has made.
#[inline(always)]
pub(crate) fn own_key(item: Item, part: Option<(u32, u8)>, made: Option<u32>) -> Option<u32>
    ensures { result ≡ own_key item part made }
{
    match part {
        Some((sort, _)) => Some(waiting_key(item.end, sort)),
        None => match made {
            Some(sort) => Some(complete_key(item.origin, sort)),
            None => None,
        },
    }
}

/// The key of the items that may wait for the item, if it has made a sort.
#[inline(always)]
pub(crate) fn before_key(item: Item, made: Option<u32>) -> Option<u32>
    ensures { result ≡ before_key item made }
{
    match made {
        None => None,
        Some(sort) => Some(waiting_key(item.origin, sort)),
    }
}

/// The key of the items for which the item may wait, if it waits for a part.
#[inline(always)]
pub(crate) fn filling_key(item: Item, part: Option<(u32, u8)>) -> Option<u32>
    ensures { result ≡ filling_key item part }
{
    match part {
        None => None,
        Some((sort, _)) => Some(complete_key(item.end, sort)),
    }
}
