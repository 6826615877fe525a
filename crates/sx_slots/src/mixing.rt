//! Hashes of numbers.

ghost use Rattle.std.specs.Prelude.{◌≡◌};
ghost use Rattle.sx_slots.specs.Mixed.{mixed_with, folded};

/// A factor that spreads what it multiplies over all bits.
const SPREAD: u64 = 0x9e37_79b9_7f4a_7c15;

/// What divides a number so that its upper half is left.
const HALF: u64 = 0x1_0000_0000;

/// One number of what was mixed before and one more.
#[inline(always)]
#[tactic(auto, unfolding(crate::specs::Mixed::mixed_with))]
pub fn mix(before: u64, number: u64) -> u64
    ensures { result ≡ mixed_with before number }
{
    before.wrapping_mul(SPREAD).wrapping_add(number)
}

/// A hash of what was mixed.
#[inline(always)]
#[tactic(auto, unfolding(crate::specs::Mixed::folded))]
pub fn folded(mixed: u64) -> u32
    ensures { result ≡ folded mixed }
{
    (mix(mixed, 0) / HALF) as u32
}
