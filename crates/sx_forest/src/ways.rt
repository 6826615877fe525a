//! How many readings there are.

ghost use Rattle.std.specs.Prelude.{◌≡◌, ◌+◌, ◌-◌, ◌<◌, ◌^◌, max};
ghost use Rattle.sx_grammar.specs.Tally.{plus, times, deeper};
ghost use Rattle.sx_forest.specs.Tallies.{tally_of, IsSmallTally};

/// How many readings there are, none, one or more, and the greatest depth of them.
#[derive(Clone, Copy)]
pub(crate) enum Ways {
    Nothing,
    One(u64),
    More(u64),
}

/// The greater of two depths.
fn greater(a: u64, b: u64) -> u64
    ensures { result ≡ max a b }
{
    if a < b { b } else { a }
}

/// The ways of this or that, where nothing is both.
pub(crate) fn either(a: Ways, b: Ways) -> Ways
    ensures { tally_of result ≡ plus (tally_of a) (tally_of b) }
{
    match (a, b) {
        (Ways::Nothing, _) => b,
        (_, Ways::Nothing) => a,
        (Ways::One(d), Ways::One(e)) => Ways::More(greater(d, e)),
        (Ways::One(d), Ways::More(e)) => Ways::More(greater(d, e)),
        (Ways::More(d), Ways::One(e)) => Ways::More(greater(d, e)),
        (Ways::More(d), Ways::More(e)) => Ways::More(greater(d, e)),
    }
}

/// The ways of this and then that.
pub(crate) fn both(a: Ways, b: Ways) -> Ways
    ensures { tally_of result ≡ times (tally_of a) (tally_of b) }
{
    match (a, b) {
        (Ways::Nothing, _) => Ways::Nothing,
        (_, Ways::Nothing) => Ways::Nothing,
        (Ways::One(d), Ways::One(e)) => Ways::One(greater(d, e)),
        (Ways::One(d), Ways::More(e)) => Ways::More(greater(d, e)),
        (Ways::More(d), Ways::One(e)) => Ways::More(greater(d, e)),
        (Ways::More(d), Ways::More(e)) => Ways::More(greater(d, e)),
    }
}

/// One more, where it fits.
fn one_more(depth: u64) -> u64
    ensures { depth < 2 ^ 63 → result ≡ depth + 1 }
{
    if depth < u64::MAX { depth + 1 } else { depth }
}

/// The ways inside a node or a bracket pair.
pub(crate) fn inside(a: Ways) -> Ways
    ensures { IsSmallTally (tally_of a) → tally_of result ≡ deeper (tally_of a) }
{
    match a {
        Ways::Nothing => Ways::Nothing,
        Ways::One(depth) => Ways::One(one_more(depth)),
        Ways::More(depth) => Ways::More(one_more(depth)),
    }
}
