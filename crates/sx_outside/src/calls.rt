//! The calls made on an object in memory.

ghost use Rattle.std.specs.Prelude.{◌≡◌, ◌↔◌, IsTrue};
ghost use Rattle.sx_outside.specs.Faults.{next as following};
ghost use Rattle.sx_outside.specs.Calls.{no_calls, called, failing_at, IsToFail};

use std::alloc::Global;
use std::marker::Model;

/// One more, where a u64 can hold it.
pub fn next(count: u64) -> u64
    ensures { result ≡ following count }
{
    count.saturating_add(1)
}

/// How many calls were made, and the numbers of those that are to fail.
#[derive(Drop)]
pub struct Calls {
    made: u64,
    failing: Vec<u64>,
}

impl Model for Calls {
    ghost use Rattle.sx_outside.specs.Calls as spec;

    ghost Value = { spec.Calls };

    ghost view = { λ calls. record { made = calls.made; failing = calls.failing.items } };
}

impl Calls {
    /// No call, and none that is to fail.
    pub fn new(alloc: Global) -> Calls
        ensures { result ≡ no_calls }
    {
        Calls {
            made: 0,
            failing: Vec::new(alloc),
        }
    }

    /// Lets just the calls with these numbers fail.
    pub fn fail(&mut self, numbers: Vec<u64>)
        ensures { self.new ≡ failing_at self.old numbers.items }
    {
        self.failing = numbers;
    }

    /// Counts one more call, and answers whether it is to fail.
    pub fn call(&mut self) -> bool
        ensures calls { self.new ≡ called self.old }
        ensures fails { IsTrue result ↔ IsToFail self.old }
    {
        self.made = next(self.made);
        self.failing.contains(&self.made)
    }
}
