//! Lists of derivations, lowered.

ghost use Rattle.std.specs.Prelude.{◌≤◌};
ghost use Rattle.sx_rules.specs.Derivations as spec;
ghost use Rattle.sx_rules.specs.Derivations.{height_of};
ghost use Rattle.sx_expand.specs.Listed.{HasEnds, StandsIn, set_in};
ghost use Rattle.sx_expand.specs.LoweredLists.{IsListLowered};
ghost use Rattle.sx_rules.specs.Limits.{most_levels};

use crate::emission::emit;
use crate::listing::Listing;
use crate::lowered_list::LoweredList;
use crate::tallying::listed_size;
use std::alloc::Global;
use sx_rewrite::RewriteError;

/// How deep a derivation may be.
const MOST_HEIGHT: u64 = sx_rules::MOST_LEVELS as u64;

/// The list of what the derivation is lowered to that the listing begins with, without a look at
/// its terms. Where that has more nodes than the budget or is deeper than 3,000, the first of these
/// is refused, in this order, before anything is written.
pub(crate) fn lower_listing(
    alloc: Global,
    listing: &Listing,
    budget: u64,
) -> Result<LoweredList, RewriteError>
    requires ends { HasEnds listing.now }
    requires stands { (p : spec.Proof) × StandsIn listing.now 0 p × (height_of p ≤ most_levels) }
    ensures { (p : spec.Proof) → StandsIn listing.now 0 p →
        IsListLowered (set_in listing.now) p budget result }
{
    match listed_size(listing, budget) {
        None => Err(RewriteError::RewriteSpent(budget)),
        Some(size) => {
            if size.height > MOST_HEIGHT {
                return Err(RewriteError::RewriteDeep);
            }
            let mut into = Vec::new(alloc);
            emit(alloc, listing, 0, &mut into)?;
            Ok(LoweredList {
                entries: into,
                copied: size.copied,
            })
        }
    }
}
