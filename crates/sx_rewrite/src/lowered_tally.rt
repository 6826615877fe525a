//! What is counted of lowered derivations.

ghost use Rattle.std.specs.Prelude.{◌≡◌, ◌+◌, ◌<◌, ◌≤◌, ◌^◌};
ghost use Rattle.sx_rules.specs.Derivations as spec;
ghost use Rattle.sx_rewrite.specs.Accepted as stored;
ghost use Rattle.sx_rewrite.specs.LoweredSizes.{IsLoweredSize};
ghost use Rattle.sx_rewrite.specs.Tallies.{IsTallyOf, IsWithKid};
ghost use Rattle.sx_rules.specs.Limits.{most_levels};

use crate::given_use::GivenUse;
use crate::lowered_size::LoweredSize;

/// How many nodes a lowered derivation has, how deep it is, and how many nodes
/// are copied for it. The numbers of nodes stay at the greatest u128 where
/// they would pass it, which is more than every budget.
#[derive(Clone, Copy)]
pub struct LoweredTally {
    pub nodes: u128,
    pub height: u64,
    pub copied: u128,
}

impl LoweredTally {
    /// What is counted of one node over no kids.
    pub fn of_one() -> LoweredTally
        ensures { result ≡ record { nodes = 1; height = 1; copied = 0 } }
    {
        LoweredTally {
            nodes: 1,
            height: 1,
            copied: 0,
        }
    }

    /// What is counted so far, with a kid of which so much is counted and whose given is used so.
    pub fn with_kid(self, given: GivenUse, kid: LoweredTally) -> LoweredTally
        requires used { 0 < given.times }
        requires near { given.above ≤ most_levels }
        requires low { kid.height < 2 ^ 32 }
        ensures { (a : stored.Accepted) (p : spec.Proof) → IsTallyOf a p kid →
            IsWithKid a given p self result }
    {
        let nodes = given.times.saturating_mul(kid.nodes);
        let more = (given.times - 1).saturating_mul(kid.nodes);
        LoweredTally {
            nodes: self.nodes.saturating_add(nodes),
            height: self.height.max(u64::from(given.above) + kid.height),
            copied: self.copied.saturating_add(more).saturating_add(kid.copied),
        }
    }

    /// How big the lowered derivation is, or None exactly where it has more nodes than the budget.
    pub fn within(self, budget: u64) -> Option<LoweredSize>
        ensures { (a : stored.Accepted) (p : spec.Proof) → IsTallyOf a p self →
            IsLoweredSize a p budget result }
    {
        if self.nodes > u128::from(budget) {
            return None;
        }
        Some(LoweredSize {
            nodes: self.nodes as u64,
            height: self.height,
            copied: self.copied.min(u128::from(u64::MAX)) as u64,
        })
    }
}
