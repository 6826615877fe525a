//! The labels in a term.

ghost use Rattle.std.specs.Prelude.{◌≤◌, ◌↔◌, IsTrue};
ghost use Rattle.sx_term.specs.Tree.{depth_of};
ghost use Rattle.sx_term.specs.Term.{tree};
ghost use Rattle.sx_grammar.specs.Told.{HasLabelsBelow};
ghost use Rattle.sx_term.specs.Limits.{most_depth};

use sx_term::Term;

/// Whether every label in the term is below the bound.
pub(crate) fn has_labels_below(term: &Term, bound: usize) -> bool
    requires { depth_of (tree term.now) ≤ most_depth }
    ensures { IsTrue result ↔ HasLabelsBelow bound (tree term.now) }
{
    match term {
        Term::Node { label, kids } => {
            if (*label as usize) >= bound {
                return false;
            }
            for kid in kids {
                if !has_labels_below(kid, bound) {
                    return false;
                }
            }
            true
        }
        Term::Lex { kind: _, text: _ } => true,
        Term::Var(_) => true,
    }
}
