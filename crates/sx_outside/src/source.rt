//! Bytes that come in.

ghost use Rattle.std.specs.Prelude.{◌≡◌, ◌≢◌, ℕ, ◌≤◌, List, Option};
ghost use Rattle.sx_outside.specs.Faults.{Rose};
ghost use Rattle.sx_outside.specs.Source.{IsTaking};

use crate::TakeAnswer;

/// Bytes that come in.
pub trait Source {
    /// The bytes left, where it tells them.
    ghost content: { Self → Option (List ℕ) };

    /// How many takes have failed, at most the greatest u64.
    ghost faults: { Self → ℕ };

    /// Moves the next bytes to the front of `into`.
    fn take(&mut self, into: &mut [u8]) -> TakeAnswer
        ensures answer { IsTaking (content self.old) into.old result into.new (content self.new) }
        ensures faults { faults self.old ≤ faults self.new }
        ensures cause { result ≡ TakeAnswer.Failed → Rose (faults self.old) (faults self.new) }
        ensures only { result ≢ TakeAnswer.Failed → faults self.new ≡ faults self.old };
}
