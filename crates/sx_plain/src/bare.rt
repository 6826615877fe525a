//! Nodes that give way to one of their kids as it is.

ghost use Rattle.std.specs.Prelude.{◌≡◌, ◌≤◌, IfOk, None, false, map, option_map};
ghost use Rattle.sx_term.specs.Tree.{depth_of};
ghost use Rattle.sx_term.specs.Term.{tree};
ghost use Rattle.sx_plain.specs.Plain.{image};
ghost use Rattle.sx_plain.specs.Views.{table_of};
ghost use Rattle.sx_plain.specs.Bare as spec;
ghost use Rattle.sx_term.specs.Limits.{most_depth};

use crate::table::PlainTable;
use std::alloc::Global;
use sx_term::{NoMemory, Term};

/// The kid to which a node gives way, where its flat body is that part alone.
fn bare_kid<'a>(table: &PlainTable, label: u32, kids: &'a [Term]) -> Option<&'a Term>
    ensures { option_map (λ k. tree k.now) result
        ≡ spec.bare_kid (table_of table.now label) (map tree kids.entry.now) }
{
    match &table.entry(label)?.flat {
        Term::Var(part) => kids.get(*part as usize),
        _ => None,
    }
}

/// The part to which the term comes down where each node on top of it that gives way to a kid does.
fn past_bare<'a>(table: &PlainTable, term: &'a Term) -> &'a Term
    requires { depth_of (tree term.now) ≤ most_depth }
    ensures last { spec.bare_under (table_of table.now) (tree result.now) ≡ None }
    ensures same { image (table_of table.now) (tree result.now)
        ≡ image (table_of table.now) (tree term.entry.now) }
    ensures depth { depth_of (tree result.now) ≤ depth_of (tree term.entry.now) }
{
    match term {
        Term::Node { label, kids } => match bare_kid(table, *label, kids) {
            Some(kid) => past_bare(table, kid),
            None => term,
        },
        _ => term,
    }
}

/// Whether a node of the term gives way to a kid, so that it has no image of its own.
pub(crate) fn has_bare(table: &PlainTable, term: &Term) -> bool
    requires { depth_of (tree term.now) ≤ most_depth }
    ensures { result ≡ spec.gives_way (table_of table.now) (tree term.now) }
{
    match term {
        Term::Node { label, kids } => {
            if bare_kid(table, *label, kids).is_some() {
                return true;
            }
            for kid in kids {
                if has_bare(table, kid) {
                    return true;
                }
            }
            false
        }
        _ => false,
    }
}

/// The term in which each such node gave way to its kid.
pub(crate) fn without_bare(alloc: Global, table: &PlainTable, term: &Term) -> Result<Term, NoMemory>
    requires { depth_of (tree term.now) ≤ most_depth }
    ensures none { IfOk result (λ t. spec.gives_way (table_of table.now) (tree t) ≡ false) }
    ensures same { IfOk result (λ t. image (table_of table.now) (tree t)
        ≡ image (table_of table.now) (tree term.now)) }
    ensures depth { IfOk result (λ t. depth_of (tree t) ≤ depth_of (tree term.now)) }
{
    match past_bare(table, term) {
        Term::Node { label, kids } => {
            let mut parts = Vec::with_capacity(alloc, kids.len())?;
            for i in 0..kids.len() {
                parts.push(without_bare(alloc, table, &kids[i])?)?;
            }
            Ok(Term::Node {
                label: *label,
                kids: parts,
            })
        }
        Term::Lex { kind, text } => Ok(Term::Lex {
            kind: *kind,
            text: text.copy(alloc)?,
        }),
        Term::Var(variable) => Ok(Term::Var(*variable)),
    }
}
