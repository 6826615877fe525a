//! Stretches of places.

ghost use Rattle.std.specs.Prelude.{ℕ, suc, ◌+◌, ◌<◌, ◌≤◌, ◌^◌, ◌↔◌, IfSome};
ghost use Rattle.sx_forest.specs.Rows.{IsIn};
ghost use Rattle.sx_forest.specs.KeptRows.{IsStretchJoined};
ghost use Rattle.sx_term.specs.Limits.{most_tokens};

/// The places from the first on and before the end; none where the end is not after the first.
#[derive(Clone, Copy)]
pub(crate) struct Stretch {
    pub(crate) first: u32,
    pub(crate) end: u32,
}

/// No places.
pub(crate) const NOWHERE: Stretch = Stretch {
    first: u32::MAX,
    end: 0,
};

/// The stretch, grown so that it has the place.
pub(crate) fn with(stretch: Stretch, place: u32) -> Stretch
    requires { place + 1 < 2 ^ 32 }
    ensures here { IsIn result place }
    ensures kept { (p : ℕ) → IsIn stretch p → IsIn result p }
{
    let mut grown = stretch;
    if place < stretch.first {
        grown.first = place;
    }
    if stretch.end <= place {
        grown.end = place + 1;
    }
    grown
}

/// The places of the stretch that are those of a span.
pub(crate) fn clipped(stretch: Stretch, from: u32, to: u32) -> Stretch
    requires { to + 1 < 2 ^ 32 }
    ensures first { from ≤ result.first }
    ensures end { result.end ≤ to + 1 }
    ensures same { (p : ℕ) → from ≤ p → p ≤ to → IsIn stretch p ↔ IsIn result p }
{
    let mut own = stretch;
    if stretch.first < from {
        own.first = from;
    }
    if to < stretch.end {
        own.end = to + 1;
    }
    own
}

/// A stretch with the places of both.
pub(crate) fn joined(one: Stretch, other: Stretch) -> Stretch
    ensures one { (p : ℕ) → IsIn one p → IsIn result p }
    ensures other { (p : ℕ) → IsIn other p → IsIn result p }
{
    let mut grown = one;
    if other.first < one.first {
        grown.first = other.first;
    }
    if one.end < other.end {
        grown.end = other.end;
    }
    grown
}

/// The stretch with the places of another too, where those that it has more are in front of it and
/// join it, or there are none.
pub(crate) fn joined_in_front(stretch: Stretch, other: Stretch) -> Option<Stretch>
    ensures { IfSome result (IsStretchJoined stretch other) }
{
    if other.end <= other.first {
        return Some(stretch);
    }
    if other.end < stretch.first || stretch.end < other.end {
        return None;
    }
    let mut grown = stretch;
    if other.first < stretch.first {
        grown.first = other.first;
    }
    Some(grown)
}

/// The places of both.
pub(crate) fn common(one: Stretch, other: Stretch) -> Stretch
    ensures { (p : ℕ) → IsIn result p ↔ (IsIn one p × IsIn other p) }
{
    let mut own = one;
    if one.first < other.first {
        own.first = other.first;
    }
    if other.end < one.end {
        own.end = other.end;
    }
    own
}

/// The places after those of the stretch, up to an end.
pub(crate) fn after_token(stretch: Stretch, to: u32) -> Stretch
    requires { to ≤ most_tokens }
    ensures { (p : ℕ) → IsIn stretch p → suc p ≤ to → IsIn result (suc p) }
{
    let own = clipped(stretch, 0, to);
    if own.end <= own.first {
        return NOWHERE;
    }
    Stretch {
        first: own.first + 1,
        end: own.end + 1,
    }
}
