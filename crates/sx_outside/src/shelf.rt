//! Files by name.

ghost use Rattle.std.specs.Prelude.{◌≡◌, ◌≢◌, ℕ, ◌≤◌, Option};
ghost use Rattle.sx_outside.specs.Files.{Files};
ghost use Rattle.sx_outside.specs.Faults.{Rose};
ghost use Rattle.sx_outside.specs.Shelf.{IsFileReading, IsWriting};

use crate::{ReadAnswer, WriteAnswer};
use sx_term::Text;

/// Files by name.
pub trait Shelf {
    /// The files that it holds, where it tells them.
    ghost content: { Self → Option Files };

    /// How many reads have failed, at most the greatest u64.
    ghost read_faults: { Self → ℕ };

    /// How many writes have failed, at most the greatest u64.
    ghost write_faults: { Self → ℕ };

    /// Reads the bytes under the name, at most `limit` of them.
    fn read(&mut self, name: &Text, limit: u32, into: &mut Vec<u8>) -> ReadAnswer
        ensures answer { IsFileReading (content self.old) name.now limit result into.new.items }
        ensures content { content self.new ≡ content self.old }
        ensures faults { read_faults self.old ≤ read_faults self.new }
        ensures write_faults { write_faults self.new ≡ write_faults self.old }
        ensures cause { result ≡ ReadAnswer.Failed →
            Rose (read_faults self.old) (read_faults self.new) }
        ensures only { result ≢ ReadAnswer.Failed → read_faults self.new ≡ read_faults self.old };

    /// Puts the bytes under the name.
    fn write(&mut self, name: &Text, bytes: &[u8]) -> WriteAnswer
        ensures answer { IsWriting (content self.old) name.now bytes.now result (content self.new) }
        ensures faults { write_faults self.old ≤ write_faults self.new }
        ensures read_faults { read_faults self.new ≡ read_faults self.old }
        ensures cause { result ≡ WriteAnswer.Failed →
            Rose (write_faults self.old) (write_faults self.new) }
        ensures only { result ≢ WriteAnswer.Failed →
            write_faults self.new ≡ write_faults self.old };
}
