//! Plain images of terms.

ghost use Rattle.std.specs.Prelude.{◌≡◌, ◌<◌, ◌≤◌, IfOk, map};
ghost use Rattle.sx_term.specs.Tree.{node, depth_of, greatest_depth, forest, listed};
ghost use Rattle.sx_term.specs.Term.{tree};
ghost use Rattle.sx_term.specs.Subst.{IsInstanceWithin};
ghost use Rattle.sx_term.specs.Instances.{instance, instances, bound_by};
ghost use Rattle.sx_plain.specs.Plain.{image, images};
ghost use Rattle.sx_plain.specs.Tables.{FitsTable};
ghost use Rattle.sx_plain.specs.Views.{table_of};
ghost use Rattle.sx_term.specs.Limits.{most_depth};

use crate::bare::{has_bare, without_bare};
use crate::measure::image_measure;
use crate::table::PlainTable;
use std::alloc::Global;
use sx_term::{MOST_DEPTH, MOST_SIZE, NoMemory, Term, TermError};

/// The plain image of the term. It is measured before it is made, and refused as TooDeep where its
/// depth is more than 1,000, and else as TooBig where it has more than 1,000,000 nodes, lexemes and
/// variables.
pub fn lower(alloc: Global, table: &PlainTable, term: &Term) -> Result<Term, TermError>
    requires shallow { depth_of (tree term.now) ≤ most_depth }
    requires fits { FitsTable (table_of table.now) (tree term.now) }
    ensures { IsInstanceWithin (image (table_of table.now) (tree term.now)) result }
{
    let measure = image_measure(table, term);
    if measure.depth > MOST_DEPTH {
        return Err(TermError::TooDeep(measure.depth));
    }
    if measure.size > MOST_SIZE {
        return Err(TermError::TooBig(measure.size));
    }
    if has_bare(table, term) {
        let rest = without_bare(alloc, table, term)?;
        let image = made(alloc, table, &rest);
        drop(rest);
        return Ok(image?);
    }
    Ok(made(alloc, table, term)?)
}

/// The plain image. Each of its nodes is made where it stands, so that nothing is copied.
#[cycle(made)]
fn made(alloc: Global, table: &PlainTable, term: &Term) -> Result<Term, NoMemory>
    requires shallow { depth_of (tree term.now) ≤ most_depth }
    ensures { IfOk result (λ t. tree t ≡ image (table_of table.now) (tree term.now)) }
{
    match term {
        Term::Node { label, kids } => match table.entry(*label) {
            Some(entry) => filled(alloc, table, &entry.flat, kids),
            None => made_node(alloc, table, *label, kids),
        },
        Term::Lex { kind, text } => Ok(Term::Lex {
            kind: *kind,
            text: text.copy(alloc)?,
        }),
        Term::Var(variable) => Ok(Term::Var(*variable)),
    }
}

/// The node with the plain images of these kids.
#[cycle(made)]
fn made_node(alloc: Global, table: &PlainTable, label: u32, kids: &[Term]) -> Result<Term, NoMemory>
    requires shallow { greatest_depth (forest (map tree kids.now)) < most_depth }
    ensures { IfOk result (λ t. tree t ≡ node label
        (images (table_of table.now) (forest (map tree kids.now)))) }
{
    let mut parts = Vec::with_capacity(alloc, kids.len())?;
    for i in 0..kids.len() {
        parts.push(made(alloc, table, &kids[i])?)?;
    }
    Ok(Term::Node { label, kids: parts })
}

/// The flat body with the plain image of a part in the place of each of its variables.
#[cycle(made)]
fn filled(alloc: Global, table: &PlainTable, flat: &Term, parts: &[Term]) -> Result<Term, NoMemory>
    requires shallow { depth_of (tree flat.now) ≤ most_depth }
    requires parts { greatest_depth (forest (map tree parts.now)) < most_depth }
    ensures { IfOk result (λ t. tree t ≡ instance
        (bound_by (listed (images (table_of table.now) (forest (map tree parts.now)))))
        (tree flat.now)) }
{
    match flat {
        Term::Node { label, kids } => filled_node(alloc, table, *label, kids, parts),
        Term::Lex { kind, text } => Ok(Term::Lex {
            kind: *kind,
            text: text.copy(alloc)?,
        }),
        Term::Var(variable) => {
            let i = *variable as usize;
            if i < parts.len() {
                return made(alloc, table, &parts[i]);
            }
            Ok(Term::Node {
                label: 0,
                kids: Vec::new(alloc),
            })
        }
    }
}

/// The node of a flat body with these kids, in which the plain images of the parts are put.
#[cycle(made)]
fn filled_node(
    alloc: Global,
    table: &PlainTable,
    label: u32,
    kids: &[Term],
    parts: &[Term],
) -> Result<Term, NoMemory>
    requires shallow { greatest_depth (forest (map tree kids.now)) < most_depth }
    requires parts { greatest_depth (forest (map tree parts.now)) < most_depth }
    ensures { IfOk result (λ t. tree t ≡ node label
        (instances (bound_by (listed (images (table_of table.now) (forest (map tree parts.now)))))
        (forest (map tree kids.now)))) }
{
    let mut made = Vec::with_capacity(alloc, kids.len())?;
    for i in 0..kids.len() {
        made.push(filled(alloc, table, &kids[i], parts)?)?;
    }
    Ok(Term::Node { label, kids: made })
}
