//! Steps of a reading.

ghost use Rattle.std.specs.Prelude.{◌≡◌, ◌≤◌};
ghost use Rattle.sx_forest.specs.Forests.{end_of};
ghost use Rattle.sx_term.specs.Limits.{most_tokens};

use crate::entry::Entry;

/// What a reading does at a symbol.
#[derive(Clone, Copy)]
pub(crate) enum Step {
    /// It goes past a literal.
    Literal,
    /// It goes over a token that is a kid.
    Token,
    /// It goes over a part, by this entry, which has this number among those from the place.
    Part(usize, Entry),
}

impl Step {
    /// The place after the step.
    pub(crate) fn end(self, place: u32) -> u32
        requires { place ≤ most_tokens }
        ensures { result ≡ end_of self place }
    {
        match self {
            Step::Literal => place + 1,
            Step::Token => place + 1,
            Step::Part(_, entry) => entry.to,
        }
    }
}
