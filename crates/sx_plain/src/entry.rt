//! Entries of plain tables.

ghost use Rattle.std.specs.Prelude.{◌≡◌, ◌≤◌, length};
ghost use Rattle.sx_term.specs.Tree.{depth_of};
ghost use Rattle.sx_term.specs.Term.{tree};
ghost use Rattle.sx_plain.specs.Uses.{IsMeasured};
ghost use Rattle.sx_term.specs.Limits.{most_depth};

use crate::part_use::PartUse;
use sx_term::Term;

/// What stands for a constructor: how many parts it has, and its flat body, in which variable n is
/// part n. Beside the body stand the number of its nodes and lexemes, its depth, and what it does
/// with each part, so that images are measured without a walk over it.
#[derive(Drop)]
pub(crate) struct Entry {
    pub arity: u32,
    pub flat: Term,
    pub own: u64,
    pub depth: u32,
    pub uses: Vec<PartUse>,
    ghost shallow: { depth_of (tree flat) ≤ most_depth },
    ghost deep: { depth ≡ depth_of (tree flat) },
    ghost many: { length uses.items ≡ arity },
    ghost measured: { ∥ IsMeasured (tree flat) own depth uses.items ∥₁ },
}
