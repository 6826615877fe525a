//! Hypotheses by the numbers of their terms.

ghost use Rattle.std.specs.Prelude.{◌≡◌, ◌↔◌, IsTrue, IfOk};

use std::alloc::Global;
use sx_term::NoMemory;

/// A hypothesis by its numbers.
#[derive(Drop)]
pub struct Fact {
    pub form: u32,
    pub inputs: Vec<usize>,
    pub outputs: Vec<usize>,
}

/// Whether the numbers are the same.
pub fn same_numbers(some: &[usize], others: &[usize]) -> bool
    ensures { IsTrue result ↔ (some.now ≡ others.now) }
{
    some == others
}

/// The same numbers once more.
pub fn copied(alloc: Global, numbers: &[usize]) -> Result<Vec<usize>, NoMemory>
    ensures { IfOk result (λ r. r.items ≡ numbers.now) }
{
    Ok(Vec::from_slice(alloc, numbers)?)
}
