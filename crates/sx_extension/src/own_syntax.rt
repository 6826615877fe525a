//! The typed syntax that an extension itself adds.

ghost use Rattle.std.specs.Prelude.{◌≡◌, ◌≤◌, ◌↔◌, ℕ, IsTrue};
ghost use Rattle.sx_term.specs.Tree.{depth_of};
ghost use Rattle.sx_term.specs.Term.{tree};
ghost use Rattle.sx_term.specs.Shapes.{shapes};
ghost use Rattle.sx_term.specs.declared.sort.Sort.TheVariants as sorts;
ghost use Rattle.sx_extension.specs.OwnSyntax.{IsOwnLabel, HasOwn};
ghost use Rattle.sx_term.specs.Limits.{most_depth};

use sx_term::{Shapes, Sort, Term};

/// The typed constructors that an extension itself adds: those of the shapes from a label on.
#[derive(Clone, Copy)]
pub(crate) struct OwnSyntax<'a> {
    pub(crate) shapes: &'a Shapes,
    pub(crate) first: usize,
}

/// Whether the sort is typed.
fn is_typed(sort: Sort) -> bool
    ensures { IsTrue result ↔ ((k : ℕ) × (sort ≡ sorts.Typed k)) }
{
    matches!(sort, Sort::Typed(_))
}

impl<'a> OwnSyntax<'a> {
    /// Whether the label is one of these.
    fn has(&self, label: u32) -> bool
        ensures { IsTrue result ↔ IsOwnLabel (shapes self.now.shapes.now) self.now.first label }
    {
        let label = label as usize;
        if label < self.first || label >= self.shapes.cons.len() {
            return false;
        }
        is_typed(self.shapes.cons[label].sort)
    }

    /// Whether one of these stands in the term.
    pub(crate) fn stands_in(&self, term: &Term) -> bool
        requires { depth_of (tree term.now) ≤ most_depth }
        ensures { IsTrue result ↔ HasOwn (shapes self.now.shapes.now) self.now.first
            (tree term.now) }
    {
        match term {
            Term::Node { label, kids } => {
                if self.has(*label) {
                    return true;
                }
                for kid in kids {
                    if self.stands_in(kid) {
                        return true;
                    }
                }
                false
            }
            Term::Lex { kind: _, text: _ } => false,
            Term::Var(_) => false,
        }
    }
}
