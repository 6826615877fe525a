//! A source in memory, whose takes fail where a test says so.

ghost use Rattle.std.specs.Prelude.{◌≡◌, ◌≢◌, ◌≤◌, Some};
ghost use Rattle.sx_outside.specs.Faults.{Rose};
ghost use Rattle.sx_outside.specs.Calls.{failing_at};
ghost use Rattle.sx_outside.specs.Source.{IsTaking};
ghost use Rattle.sx_outside.specs.Kinds.{new_source, IsSourceTaken};

use crate::calls::{Calls, next};
use crate::rest::Rest;
use crate::{Source, TakeAnswer};
use std::marker::Model;

/// A source in memory, whose takes fail where a test says so.
#[derive(Drop)]
pub struct MemSource {
    rest: Rest,
    calls: Calls,
    failed: u64,
}

impl Model for MemSource {
    ghost use Rattle.sx_outside.specs.Kinds.{SourceData};

    ghost Value = { SourceData };

    ghost view = { λ source. record {
      bytes = source.rest;
      calls = source.calls;
      faults = source.failed;
    } };
}

impl MemSource {
    /// These bytes, no faults, and no calls that are to fail.
    pub fn new(bytes: Vec<u8>) -> MemSource
        ensures { result ≡ new_source bytes.items }
    {
        let calls = Calls::new(*bytes.allocator());
        MemSource {
            rest: Rest::new(bytes),
            calls,
            failed: 0,
        }
    }

    /// Lets just these calls of `take` fail, counted from 1.
    pub fn fail(&mut self, calls: Vec<u64>)
        ensures { self.new ≡ record self.old { calls = failing_at self.old.calls calls.items } }
    {
        self.calls.fail(calls);
    }
}

impl Source for MemSource {
    ghost content = { λ source. Some source.bytes };

    ghost faults = { λ source. source.faults };

    fn take(&mut self, into: &mut [u8]) -> TakeAnswer
        ensures answer { IsTaking (Some self.old.bytes) into.old result into.new
            (Some self.new.bytes) }
        ensures faults { self.old.faults ≤ self.new.faults }
        ensures cause { result ≡ TakeAnswer.Failed → Rose self.old.faults self.new.faults }
        ensures only { result ≢ TakeAnswer.Failed → self.new.faults ≡ self.old.faults }
        ensures takes { IsSourceTaken self.old self.new result }
    {
        if self.calls.call() {
            self.failed = next(self.failed);
            return TakeAnswer::Failed;
        }
        self.rest.take(into)
    }
}
