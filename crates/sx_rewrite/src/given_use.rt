//! What a certificate does with one of its givens.

/// How often the given of a premise stands in a certificate, and how many nodes
/// stand above its deepest place, or 0 where it does not stand. The number of
/// times stays at the greatest u128 where it would pass it.
#[derive(Clone, Copy)]
pub struct GivenUse {
    pub times: u128,
    pub above: u32,
}
