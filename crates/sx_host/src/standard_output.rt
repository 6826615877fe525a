//! Standard output as a sink. It tells nothing of its content.

ghost use Rattle.std.specs.Prelude.{None};

use std::io::{self, Write};
use sx_outside::{Sink, WriteAnswer};

/// Standard output, with how many writes have failed.
#[derive(Drop)]
pub struct StandardOutput<'a> {
    rt: &'a HostRuntime,
    failed: u64,
}

impl<'a> StandardOutput<'a> {
    /// Standard output, without faults.
    pub fn new(rt: &'a HostRuntime) -> StandardOutput<'a> {
        StandardOutput { rt, failed: 0 }
    }
}

impl<'a> Sink for StandardOutput<'a> {
    ghost content = { λ _. None };

    ghost faults = { λ output. output.failed };

    fn write(&mut self, bytes: &[u8]) -> WriteAnswer {
        if io::writer(self.rt).write_all(bytes).is_ok() {
            WriteAnswer::Done
        } else {
            self.failed = self.failed.saturating_add(1);
            WriteAnswer::Failed
        }
    }
}
