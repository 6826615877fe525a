//! The size of lowered derivations, counted by their entries.

ghost use Rattle.std.specs.Prelude.{◌≡◌, ◌+◌, ◌<◌, ◌≤◌, length};
ghost use Rattle.sx_rules.specs.Derivations as spec;
ghost use Rattle.sx_rules.specs.Derivations.{height_of, most_height, nodes_of_all};
ghost use Rattle.sx_rewrite.specs.LoweredSizes.{IsLoweredSize, proof_count};
ghost use Rattle.sx_rewrite.specs.Sizes.{IsSmallCertificate};
ghost use Rattle.sx_rewrite.specs.Tallies.{IsTallyOf, IsSizedTally, IsBaseTally, IsWithKid};
ghost use Rattle.sx_expand.specs.Listed.{HasEnds, StandsIn, StandInRow, set_in};
ghost use Rattle.sx_rules.specs.Limits.{most_levels};

use crate::ends::{entry_at, number_at};
use crate::listing::Listing;
use sx_rewrite::{CertificateSize, GivenUse, LoweredSize, LoweredTally};
use sx_rules::Entry;

/// How big the derivation with these entries is when it is lowered, or None exactly where it
/// then has more nodes than the budget. No memory is taken, no certificate is looked at,
/// and no kid whose given the certificate of its node does not use.
pub(crate) fn listed_size(listing: &Listing, budget: u64) -> Option<LoweredSize>
    requires ends { HasEnds listing.now }
    requires stands { (p : spec.Proof) × StandsIn listing.now 0 p × (height_of p ≤ most_levels) }
    ensures { (p : spec.Proof) → StandsIn listing.now 0 p →
        IsLoweredSize (set_in listing.now) p budget result }
{
    tally(listing, 0).within(budget)
}

/// What is counted of the derivation that begins with the entry at the place.
#[cycle(tallied)]
fn tally(listing: &Listing, at: usize) -> LoweredTally
    requires ends { HasEnds listing.now }
    requires stands { (p : spec.Proof) × StandsIn listing.now at p × (height_of p ≤ most_levels) }
    ensures { (p : spec.Proof) → StandsIn listing.now at p →
        IsTallyOf (set_in listing.now) p result }
{
    match entry_at(listing.list, at) {
        Entry::Rule(number) => {
            let end = number_at(listing.ends, at);
            match listing.set.certificate_size(number) {
                Some(size) => certificate_tally(listing, size, at + 1),
                None => base_tally(listing, at + 1, end),
            }
        }
        Entry::Given(_) => LoweredTally::of_one(),
    }
}

/// What is counted of a node over the derivations from the first place on by an extension
/// rule whose certificate has the size.
#[cycle(tallied)]
fn certificate_tally(listing: &Listing, size: &CertificateSize, first: usize) -> LoweredTally
    requires ends { HasEnds listing.now }
    requires stand { (ps : spec.Proofs) × StandInRow listing.now first ps
        × (proof_count ps ≡ length size.now.uses.items) × (most_height ps < most_levels) }
    requires small { IsSmallCertificate size.now }
    ensures { (ps : spec.Proofs) → StandInRow listing.now first ps →
        proof_count ps ≡ length size.now.uses.items →
        IsSizedTally (set_in listing.now) size.now ps result }
{
    let mut all = size.own_tally();
    let mut at = first;
    for given in &size.uses {
        all = with_kid(listing, all, *given, at);
        at = number_at(listing.ends, at);
    }
    all
}

/// What is counted of a node over the derivations from the first place up to the end by a
/// base rule.
#[cycle(tallied)]
fn base_tally(listing: &Listing, first: usize, end: usize) -> LoweredTally
    requires ends { HasEnds listing.now }
    requires stand { (ps : spec.Proofs) × StandInRow listing.now first ps
        × (first + nodes_of_all ps ≡ end) × (most_height ps < most_levels) }
    ensures { (ps : spec.Proofs) → StandInRow listing.now first ps →
        first + nodes_of_all ps ≡ end → IsBaseTally (set_in listing.now) ps result }
{
    let mut all = LoweredTally::of_one();
    let mut at = first;
    while at < end {
        all = with_kid(listing, all, GivenUse { times: 1, above: 1 }, at);
        at = number_at(listing.ends, at);
    }
    all
}

/// What is counted so far, with the kid at the place, whose given is used so.
#[cycle(tallied)]
fn with_kid(listing: &Listing, so_far: LoweredTally, given: GivenUse, at: usize) -> LoweredTally
    requires ends { HasEnds listing.now }
    requires stands { (p : spec.Proof) × StandsIn listing.now at p × (height_of p < most_levels) }
    requires near { given.above ≤ most_levels }
    ensures { (p : spec.Proof) → StandsIn listing.now at p →
        IsWithKid (set_in listing.now) given p so_far result }
{
    if given.times == 0 {
        return so_far;
    }
    so_far.with_kid(given, tally(listing, at))
}
