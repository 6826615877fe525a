//! What a variable of a pattern would be bound to.

ghost use Rattle.std.specs.Prelude.{◌≤◌};
ghost use Rattle.sx_term.specs.Tree.{depth_of};
ghost use Rattle.sx_term.specs.Term.{tree};
ghost use Rattle.sx_term.specs.Limits.{most_depth};

use crate::term::Term;

/// A variable of a pattern, and the part of the term that it would be bound to.
#[derive(Drop)]
pub(crate) struct Candidate<'a> {
    pub(crate) variable: u32,
    pub(crate) part: &'a Term,
    ghost is_shallow: { depth_of (tree part.now) ≤ most_depth },
}
