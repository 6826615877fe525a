//! What was asked for, found by its hash.

ghost use Rattle.std.specs.Prelude.{◌≡◌, ◌≤◌, ◌⊎◌, ◌↔◌, ℕ, [], ◌∷◌, ◌++◌, OnOk, OnErr, IsTrue};
ghost use Rattle.sx_earley.specs.AskSet.{ask_hash, IsBeside, IsLevelReached};
ghost use Rattle.sx_earley.specs.AskSet.{IsLeastLevel, IsLeastWithOther};

use crate::ask::Ask;
use std::alloc::{AllocError, Global};
use std::marker::Model;
use sx_slots::{Slots, folded, mix};

/// What was asked for, in the order in which it was.
#[derive(Drop)]
pub(crate) struct AskSet {
    asks: Vec<Ask>,
    slots: Slots,
}

impl Model for AskSet {
    ghost use Rattle.std.specs.Prelude.{◌≡◌, List, map};
    ghost use Rattle.sx_earley.specs.declared.ask.Ask.{Ask};
    ghost use Rattle.sx_earley.specs.AskSet.{ask_hash};

    ghost Value = { List Ask };

    ghost view = { λ s. s.asks.items };

    ghost invariant = { λ s. s.slots ≡ map ask_hash s.asks.items };
}

/// The hash of what is asked for at any level.
#[inline(always)]
pub(crate) fn hash_of(ask: Ask) -> u32
    ensures { result ≡ ask_hash ask }
{
    folded(mix(ask.sort as u64, ask.place as u64))
}

/// Whether they ask for the same sort at the same place.
#[inline(always)]
fn is_beside(one: Ask, other: Ask) -> bool
    ensures { IsTrue result ↔ IsBeside one other }
{
    one.place == other.place && one.sort == other.sort
}

/// The lower one of the levels.
#[inline(always)]
fn lower(least: Option<u8>, level: u8) -> u8
    ensures { (m : ℕ) → (result ≤ m) ↔ (IsLevelReached least m ⊎ (level ≤ m)) }
{
    match least {
        None => level,
        Some(other) => { if other < level { other } else { level } }
    }
}

/// The least level from which this was asked for, where the other was asked for too.
#[inline(always)]
fn next_least(ask: Ask, least: Option<u8>, other: Ask) -> Option<u8>
    ensures { IsLeastWithOther ask least other result }
{
    if is_beside(other, ask) {
        Some(lower(least, other.least))
    } else {
        least
    }
}

impl AskSet {
    /// Nothing was asked for. It takes no memory.
    pub(crate) fn new(alloc: Global) -> AskSet
        ensures { result ≡ [] }
    {
        AskSet {
            asks: Vec::new(alloc),
            slots: Slots::new(alloc),
        }
    }

    /// The least level from which this, of which this is the hash, was asked for, or None where it
    /// was not.
    #[inline(always)]
    pub(crate) fn least(&self, ask: Ask, hash: u32) -> Option<u8>
        requires { hash ≡ ask_hash ask }
        ensures { IsLeastLevel self.now ask result }
    {
        let mut least = None;
        let mut here = self.slots.last(hash);
        while let Some(number) = here {
            least = next_least(ask, least, self.asks[number]);
            here = self.slots.before(number);
        }
        least
    }

    /// This, of which this is the hash, is asked for. Where memory is lacking, all is as before.
    pub(crate) fn push(&mut self, ask: Ask, hash: u32) -> Result<(), AllocError>
        requires { hash ≡ ask_hash ask }
        ensures ok { OnOk result (self.new ≡ self.old ++ ask ∷ []) }
        ensures err { OnErr result (self.new ≡ self.old) }
    {
        self.asks.reserve(1)?;
        self.slots.push(hash)?;
        self.asks.push_reserved(ask);
        Ok(())
    }
}
