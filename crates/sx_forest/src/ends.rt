//! Searching entries by their ends.

ghost use Rattle.std.specs.Prelude.{◌≡◌, ◌≤◌, ◌<◌, ℕ, Some, length, slice_get};
ghost use Rattle.sx_forest.specs.Rows.{AreSorted};

use crate::entry::Entry;

/// The index from which on the entries end at the place or after it. Those before it, but for the
/// first entry, end before the place: the entries from the second on are in the order of their
/// ends.
pub(crate) fn index_at(entries: &[Entry], place: usize) -> usize
    requires sorted { AreSorted entries.now }
    requires some { 1 ≤ length entries.now }
    ensures low { 1 ≤ result }
    ensures high { result ≤ length entries.now }
    ensures before { (i : ℕ) (e : Entry) → 1 ≤ i → i < result → slice_get entries.now i ≡ Some e →
        e.to < place }
    ensures after { (i : ℕ) (e : Entry) → result ≤ i → slice_get entries.now i ≡ Some e →
        place ≤ e.to }
{
    let mut low = 1;
    let mut high = entries.len();
    if (entries[high - 1].to as usize) < place {
        return high;
    }
    while low < high {
        let middle = low + (high - low) / 2;
        if (entries[middle].to as usize) < place {
            low = middle + 1;
        } else {
            high = middle;
        }
    }
    high
}
