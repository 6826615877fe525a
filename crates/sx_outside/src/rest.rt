//! Bytes that are taken from the front.

ghost use Rattle.std.specs.Prelude.{◌≡◌, ◌≢◌, Some, drop};
ghost use Rattle.sx_outside.specs.Source.{IsTaking};

use crate::TakeAnswer;
use std::marker::Model;

/// Bytes that are taken from the front.
#[derive(Drop)]
pub struct Rest {
    bytes: Vec<u8>,
    taken: usize,
}

impl Model for Rest {
    ghost use Rattle.std.specs.Prelude.{List, ℕ, drop};

    ghost Value = { List ℕ };

    ghost view = { λ rest. drop rest.taken rest.bytes.items };
}

impl Rest {
    /// All the bytes.
    pub fn new(bytes: Vec<u8>) -> Rest
        ensures { result ≡ bytes.items }
    {
        Rest { bytes, taken: 0 }
    }

    /// Moves the next bytes to the front of `into`.
    pub fn take(&mut self, into: &mut [u8]) -> TakeAnswer
        ensures answer { IsTaking (Some self.old) into.old result into.new (Some self.new) }
        ensures never { result ≢ TakeAnswer.Failed }
    {
        if self.taken >= self.bytes.len() {
            return TakeAnswer::End;
        }
        let left = self.bytes.len() - self.taken;
        let count = left.min(into.len());
        into[..count].copy_from_slice(&self.bytes[self.taken..self.taken + count]);
        self.taken += count;
        TakeAnswer::Took(count)
    }
}
