//! Numbers of premises, as printed lines tell them.

ghost use Rattle.std.specs.Prelude.{◌≡◌, ◌≤◌, ◌+◌, ◌^◌, MatchResult};

use sx_term::NoMemory;

/// The number in a printed line of a premise that counts from 0: printed premises count from 1. The
/// error is a number past the greatest u64, which no premise of a rule in memory has.
pub fn premise_number(premise: usize) -> Result<u64, NoMemory>
    ensures { MatchResult result (λ number. number ≡ premise + 1) (λ _. 2 ^ 64 ≤ premise + 1) }
{
    match (premise as u64).checked_add(1) {
        Some(number) => Ok(number),
        None => Err(NoMemory::Memory),
    }
}
