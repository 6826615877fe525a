//! Whether a term meets the conditions of `add` and `lower`.

ghost use Rattle.std.specs.Prelude.{ℕ, ◌<◌, ◌↔◌, IsTrue, map};
ghost use Rattle.sx_term.specs.Tree.{forest};
ghost use Rattle.sx_term.specs.Term.{tree};
ghost use Rattle.sx_term.specs.Instances.{Stands};
ghost use Rattle.sx_plain.specs.Tables.{HasParts, FitsTable};
ghost use Rattle.sx_plain.specs.Views.{table_of};

use sx_plain::PlainTable;
use sx_term::Term;

/// Whether the variable stands in the term.
fn stands(term: &Term, variable: usize) -> bool
    ensures { IsTrue result ↔ Stands variable (tree term.now) }
{
    match term {
        Term::Node { label: _, kids } => {
            for kid in kids {
                if stands(kid, variable) {
                    return true;
                }
            }
            false
        }
        Term::Lex { kind: _, text: _ } => false,
        Term::Var(other) => variable == *other as usize,
    }
}

/// Whether each variable of the term is below the number.
pub(crate) fn are_below(term: &Term, arity: u32) -> bool
    ensures { IsTrue result → (v : ℕ) → Stands v (tree term.now) → v < arity }
{
    match term {
        Term::Node { label: _, kids } => {
            for kid in kids {
                if !are_below(kid, arity) {
                    return false;
                }
            }
            true
        }
        Term::Lex { kind: _, text: _ } => true,
        Term::Var(variable) => *variable < arity,
    }
}

/// Whether there are as many kids as the flat body of the label has variables, if there is one.
fn has_parts(table: &PlainTable, label: u32, kids: &[Term]) -> bool
    ensures { IsTrue result → HasParts (table_of table.now label) (forest (map tree kids.now)) }
{
    table.facts();
    match table.flat(label) {
        Some(flat) => {
            if stands(flat, kids.len()) {
                return false;
            }
            match kids.len().checked_sub(1) {
                Some(last) => stands(flat, last),
                None => true,
            }
        }
        None => true,
    }
}

/// Whether each node of the term has as many kids as the table asks for.
pub(crate) fn fits(table: &PlainTable, term: &Term) -> bool
    ensures { IsTrue result → FitsTable (table_of table.now) (tree term.now) }
{
    match term {
        Term::Node { label, kids } => {
            if !has_parts(table, *label, kids) {
                return false;
            }
            for kid in kids {
                if !fits(table, kid) {
                    return false;
                }
            }
            true
        }
        Term::Lex { kind: _, text: _ } => true,
        Term::Var(_) => true,
    }
}
