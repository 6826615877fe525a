//! Bytes that go out.

ghost use Rattle.std.specs.Prelude.{◌≡◌, ◌≢◌, ℕ, ◌≤◌, List, Option};
ghost use Rattle.sx_outside.specs.Faults.{Rose};
ghost use Rattle.sx_outside.specs.Sink.{IsAppending};

use crate::WriteAnswer;

/// Bytes that go out.
pub trait Sink {
    /// The bytes written, where it tells them.
    ghost content: { Self → Option (List ℕ) };

    /// How many writes have failed, at most the greatest u64.
    ghost faults: { Self → ℕ };

    /// Appends the bytes.
    fn write(&mut self, bytes: &[u8]) -> WriteAnswer
        ensures answer { IsAppending (content self.old) bytes.now result (content self.new) }
        ensures faults { faults self.old ≤ faults self.new }
        ensures cause { result ≡ WriteAnswer.Failed → Rose (faults self.old) (faults self.new) }
        ensures only { result ≢ WriteAnswer.Failed → faults self.new ≡ faults self.old };
}
