//! Standard input as a source. It tells nothing of its content.

ghost use Rattle.std.specs.Prelude.{None};

use std::io::Read;
use sx_outside::{Source, TakeAnswer};

/// The most bytes that are taken at once.
const MOST_TAKEN: usize = 4096;

/// Standard input, with how many takes have failed.
#[derive(Drop)]
pub struct StandardInput<'a> {
    rt: &'a HostRuntime,
    failed: u64,
}

impl<'a> StandardInput<'a> {
    /// Standard input, without faults.
    pub fn new(rt: &'a HostRuntime) -> StandardInput<'a> {
        StandardInput { rt, failed: 0 }
    }
}

impl<'a> Source for StandardInput<'a> {
    ghost content = { λ _. None };

    ghost faults = { λ input. input.failed };

    fn take(&mut self, into: &mut [u8]) -> TakeAnswer {
        if into.is_empty() {
            return TakeAnswer::Took(0);
        }
        let mut bytes = [0u8; MOST_TAKEN];
        let most = into.len().min(MOST_TAKEN);
        match self.rt.stdin().read(&mut bytes[..most]) {
            Ok(0) => TakeAnswer::End,
            Ok(count) => {
                into[..count].copy_from_slice(&bytes[..count]);
                TakeAnswer::Took(count)
            }
            Err(_) => {
                self.failed = self.failed.saturating_add(1);
                TakeAnswer::Failed
            }
        }
    }
}
