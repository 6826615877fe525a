//! A sink in memory, whose writes fail where a test says so.

ghost use Rattle.std.specs.Prelude.{◌≡◌, ◌≢◌, ◌≤◌, Some};
ghost use Rattle.sx_outside.specs.Faults.{Rose};
ghost use Rattle.sx_outside.specs.Calls.{failing_at};
ghost use Rattle.sx_outside.specs.Sink.{IsAppending};
ghost use Rattle.sx_outside.specs.Kinds.{new_sink, IsSent};

use crate::calls::{Calls, next};
use crate::{Sink, WriteAnswer};
use std::alloc::Global;
use std::marker::Model;

/// A sink in memory, whose writes fail where a test says so.
#[derive(Drop)]
pub struct MemSink {
    bytes: Vec<u8>,
    calls: Calls,
    failed: u64,
}

impl Model for MemSink {
    ghost use Rattle.sx_outside.specs.Kinds.{SinkData};

    ghost Value = { SinkData };

    ghost view = { λ sink. record {
      bytes = sink.bytes.items;
      calls = sink.calls;
      faults = sink.failed;
    } };
}

impl MemSink {
    /// Nothing written, no faults, and no calls that are to fail.
    pub fn new(alloc: Global) -> MemSink
        ensures { result ≡ new_sink }
    {
        MemSink {
            bytes: Vec::new(alloc),
            calls: Calls::new(alloc),
            failed: 0,
        }
    }

    /// Lets just these calls of `write` fail, counted from 1.
    pub fn fail(&mut self, calls: Vec<u64>)
        ensures { self.new ≡ record self.old { calls = failing_at self.old.calls calls.items } }
    {
        self.calls.fail(calls);
    }

    /// What was written.
    pub fn written(&self) -> &[u8]
        ensures { result.now ≡ self.now.bytes }
    {
        &self.bytes
    }
}

impl Sink for MemSink {
    ghost content = { λ sink. Some sink.bytes };

    ghost faults = { λ sink. sink.faults };

    fn write(&mut self, bytes: &[u8]) -> WriteAnswer
        ensures answer { IsAppending (Some self.old.bytes) bytes.now result (Some self.new.bytes) }
        ensures faults { self.old.faults ≤ self.new.faults }
        ensures cause { result ≡ WriteAnswer.Failed → Rose self.old.faults self.new.faults }
        ensures only { result ≢ WriteAnswer.Failed → self.new.faults ≡ self.old.faults }
        ensures sends { IsSent self.old self.new result }
    {
        if self.calls.call() {
            self.failed = next(self.failed);
            return WriteAnswer::Failed;
        }
        match self.bytes.extend_from_slice(bytes) {
            Ok(()) => WriteAnswer::Done,
            Err(_) => WriteAnswer::NoMemory,
        }
    }
}
