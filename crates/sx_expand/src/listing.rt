//! Lists of entries with their ends.

use sx_rewrite::Accepted;
use sx_rules::Entry;

/// The entries of a derivation by the rules of an accepted set, in preorder, and for each
/// the number of the entry after the derivation that begins with it.
#[derive(Clone, Copy)]
pub(crate) struct Listing<'a> {
    pub set: &'a Accepted,
    pub list: &'a [Entry],
    pub ends: &'a [usize],
}
