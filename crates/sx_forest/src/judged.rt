//! What the readings of all tokens come to.

/// How many readings there are, and whether one of them is too deep.
#[derive(Clone, Copy)]
pub(crate) enum Judged {
    /// None.
    Nothing,
    /// One of them is deeper than 1,000; the greatest depth.
    TooDeep(u64),
    /// One.
    One,
    /// More than one.
    More,
}
