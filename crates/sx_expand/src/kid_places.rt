//! Where the kids of a node stand.

ghost use Rattle.std.specs.Prelude.{◌≡◌, ◌+◌, IfOk};
ghost use Rattle.sx_rules.specs.Derivations as spec;
ghost use Rattle.sx_rules.specs.Derivations.{nodes_of_all};
ghost use Rattle.sx_expand.specs.Listed.{HasEnds, StandInRow, StandInEach};
ghost use Rattle.sx_expand.specs.Steps.{AreNotBelow};

use crate::ends::number_at;
use crate::listing::Listing;
use std::alloc::Global;
use sx_term::NoMemory;

/// The places of the derivations that stand from the first place up to the end.
pub(crate) fn kid_places(
    alloc: Global,
    listing: &Listing,
    first: usize,
    end: usize,
) -> Result<Vec<usize>, NoMemory>
    requires ends { HasEnds listing.now }
    requires stand { (ps : spec.Proofs) × StandInRow listing.now first ps
        × (first + nodes_of_all ps ≡ end) }
    ensures stand { IfOk result (λ x. (ps : spec.Proofs) → StandInRow listing.now first ps →
        first + nodes_of_all ps ≡ end → StandInEach listing.now x.items ps) }
    ensures after { IfOk result (λ x. AreNotBelow first x.items) }
{
    let mut places = Vec::new(alloc);
    let mut at = first;
    while at < end {
        places.push(at)?;
        at = number_at(listing.ends, at);
    }
    Ok(places)
}
