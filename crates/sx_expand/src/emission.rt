//! The entries of lowered derivations.

ghost use Rattle.std.specs.Prelude.{◌≡◌, ◌++◌, ◌+◌, ◌≤◌, IfOk};
ghost use Rattle.sx_rules.specs.Derivations as spec;
ghost use Rattle.sx_rules.specs.Derivations.{nodes_of_all};
ghost use Rattle.sx_rules.specs.EntryView.{entries};
ghost use Rattle.sx_rules.specs.ProofView as view;
ghost use Rattle.sx_expand.specs.Listed.{HasEnds, StandsIn, StandInRow, StandInEach, set_in};
ghost use Rattle.sx_expand.specs.LoweredOrders.{lowered_order, lowered_orders};
ghost use Rattle.sx_expand.specs.LoweredOrders.{grafted_order, all_entries};
ghost use Rattle.sx_rules.specs.Limits.{most_levels};

use crate::ends::{entry_at, number_at};
use crate::kid_places::kid_places;
use crate::listing::Listing;
use std::alloc::Global;
use sx_rules::{Entry, Proof};
use sx_term::NoMemory;

/// Writes the entries of what the derivation is lowered to that begins with the entry at the place.
#[cycle(emitted)]
pub(crate) fn emit(
    alloc: Global,
    listing: &Listing,
    at: usize,
    into: &mut Vec<Entry>,
) -> Result<(), NoMemory>
    requires ends { HasEnds listing.now }
    requires stands { (p : spec.Proof) × StandsIn listing.now at p }
    ensures { IfOk result (λ _. (p : spec.Proof) → StandsIn listing.now at p →
        entries into.new.items
        ≡ entries into.old.items ++ lowered_order (set_in listing.now) p) }
{
    match entry_at(listing.list, at) {
        Entry::Rule(number) => {
            let end = number_at(listing.ends, at);
            match listing.set.certificate(number) {
                Some(certificate) => {
                    let places = kid_places(alloc, listing, at + 1, end)?;
                    emit_certificate(alloc, listing, certificate, &places, into)
                }
                None => {
                    into.push(Entry::Rule(number))?;
                    emit_kids(alloc, listing, at + 1, end, into)
                }
            }
        }
        Entry::Given(number) => {
            into.push(Entry::Given(number))?;
            Ok(())
        }
    }
}

/// Writes the entries of what the derivations are lowered to that stand from the first place up to
/// the end, one after another.
#[cycle(emitted)]
fn emit_kids(
    alloc: Global,
    listing: &Listing,
    first: usize,
    end: usize,
    into: &mut Vec<Entry>,
) -> Result<(), NoMemory>
    requires ends { HasEnds listing.now }
    requires stand { (ps : spec.Proofs) × StandInRow listing.now first ps
        × (first + nodes_of_all ps ≡ end) }
    ensures { IfOk result (λ _. (ps : spec.Proofs) → StandInRow listing.now first ps →
        first + nodes_of_all ps ≡ end →
        entries into.new.items
        ≡ entries into.old.items ++ all_entries (lowered_orders (set_in listing.now) ps)) }
{
    let mut at = first;
    while at < end {
        emit(alloc, listing, at, into)?;
        at = number_at(listing.ends, at);
    }
    Ok(())
}

/// Writes the entries of the certificate, with those of what the derivations at the places are
/// lowered to in the place of its givens.
#[cycle(emitted)]
fn emit_certificate(
    alloc: Global,
    listing: &Listing,
    certificate: &Proof,
    places: &[usize],
    into: &mut Vec<Entry>,
) -> Result<(), NoMemory>
    requires ends { HasEnds listing.now }
    requires height { spec.height_of (view.proof certificate.now) ≤ most_levels }
    requires stand { (ps : spec.Proofs) × StandInEach listing.now places.now ps }
    ensures { IfOk result (λ _. (ps : spec.Proofs) → StandInEach listing.now places.now ps →
        entries into.new.items
        ≡ entries into.old.items
        ++ grafted_order (lowered_orders (set_in listing.now) ps) (view.proof certificate.now)) }
{
    match certificate {
        Proof::By {
            rule,
            binds: _,
            kids,
        } => {
            into.push(Entry::Rule(*rule))?;
            for kid in kids {
                emit_certificate(alloc, listing, kid, places, into)?;
            }
            Ok(())
        }
        Proof::Given(number) => {
            let given = *number as usize;
            if given < places.len() {
                return emit(alloc, listing, number_at(places, given), into);
            }
            into.push(Entry::Given(*number))?;
            Ok(())
        }
    }
}
