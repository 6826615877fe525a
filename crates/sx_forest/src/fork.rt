//! Where two readings part.

ghost use Rattle.std.specs.Prelude.{◌≡◌};
ghost use Rattle.sx_forest.specs.Forests.{one_of, other_of};

use crate::entry::Entry;

/// How two readings part at a part of a production.
#[derive(Clone, Copy)]
pub(crate) enum Fork {
    /// They go over it by these two entries.
    Apart(Entry, Entry),
    /// They both go over it by this entry, which has more readings than one.
    Inside(Entry),
}

impl Fork {
    /// The entry by which the first goes.
    pub(crate) fn one(self) -> Entry
        ensures { result ≡ one_of self }
    {
        match self {
            Fork::Apart(one, _) => one,
            Fork::Inside(entry) => entry,
        }
    }

    /// The entry by which the other goes.
    pub(crate) fn other(self) -> Entry
        ensures { result ≡ other_of self }
    {
        match self {
            Fork::Apart(_, other) => other,
            Fork::Inside(entry) => entry,
        }
    }
}
