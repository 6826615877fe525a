//! Plain images of the terms that are bound at a node.

ghost use Rattle.std.specs.Prelude.{◌≡◌, ◌<◌, ◌≤◌, IfOk, length, map, get_or};
ghost use Rattle.sx_term.specs.Term.{tree};
ghost use Rattle.sx_term.specs.Tree.{node, none, depth_of, greatest_depth, forest};
ghost use Rattle.sx_plain.specs.Plain.{image};
ghost use Rattle.sx_plain.specs.Tables.{FitsTable, FitTable};
ghost use Rattle.sx_plain.specs.Views.{table_of};
ghost use Rattle.sx_rewrite.specs.Put.{ArePut};
ghost use Rattle.sx_rewrite.specs.PutImages.{IsTermPut, image_for, images_for};
ghost use Rattle.sx_term.specs.Limits.{most_depth};

use crate::put_term::PutTerm;
use crate::put_terms::PutTerms;
use std::alloc::Global;
use sx_plain::{Measure, PlainTable, image_measure, lower};
use sx_term::{NoMemory, Sort, Term, TermError};

/// What is put for variables of these sorts to which these terms are bound: the plain image of
/// each, and a node without kids for one of a typed sort. An image is measured before it is made,
/// and made only where it passes no limit. The one refusal is out of memory.
pub(crate) fn image_terms(
    alloc: Global,
    table: &PlainTable,
    sorts: &[Sort],
    binds: &[Term],
) -> Result<PutTerms, NoMemory>
    requires many { length binds.now ≡ length sorts.now }
    requires shallow { greatest_depth (forest (map tree binds.now)) ≤ most_depth }
    requires fit { FitTable (table_of table.now) (forest (map tree binds.now)) }
    ensures { IfOk result
        (ArePut (images_for (table_of table.now) sorts.now (map tree binds.now))) }
{
    let mut terms = Vec::with_capacity(alloc, binds.len())?;
    let mut measures = Vec::with_capacity(alloc, binds.len())?;
    for i in 0..binds.len() {
        let sort = sort_at(sorts, i);
        let PutTerm { term, measure } = put_image(alloc, table, sort, &binds[i])?;
        terms.push(term)?;
        measures.push(measure)?;
    }
    Ok(PutTerms { terms, measures })
}

/// The sort at the place.
fn sort_at(sorts: &[Sort], place: usize) -> Sort
    requires { place < length sorts.now }
    ensures { result ≡ get_or sorts.now place result }
{
    sorts[place]
}

/// What is put for a variable of the sort to which the term is bound.
/// The one refusal is out of memory.
fn put_image(
    alloc: Global,
    table: &PlainTable,
    sort: Sort,
    term: &Term,
) -> Result<PutTerm, NoMemory>
    requires shallow { depth_of (tree term.now) ≤ most_depth }
    requires fits { FitsTable (table_of table.now) (tree term.now) }
    ensures { IfOk result (IsTermPut (image_for (table_of table.now) sort (tree term.now))) }
{
    match sort {
        Sort::Lex(_) => image_put(alloc, table, term),
        Sort::Plain(_) => image_put(alloc, table, term),
        Sort::Typed(_) => Ok(PutTerm {
            term: blank(alloc),
            measure: Measure { depth: 1, size: 1 },
        }),
    }
}

/// The plain image of the term, which is made where it passes no limit.
/// The one refusal is out of memory.
fn image_put(alloc: Global, table: &PlainTable, term: &Term) -> Result<PutTerm, NoMemory>
    requires shallow { depth_of (tree term.now) ≤ most_depth }
    requires fits { FitsTable (table_of table.now) (tree term.now) }
    ensures { IfOk result (IsTermPut (image (table_of table.now) (tree term.now))) }
{
    let measure = image_measure(table, term);
    match lower(alloc, table, term) {
        Ok(made) => Ok(PutTerm {
            term: made,
            measure,
        }),
        Err(TermError::Memory) => Err(NoMemory::Memory),
        Err(TermError::TooDeep(_) | TermError::TooBig(_)) => Ok(PutTerm {
            term: blank(alloc),
            measure,
        }),
    }
}

/// A node without kids.
fn blank(alloc: Global) -> Term
    ensures { tree result ≡ node 0 none }
{
    Term::Node {
        label: 0,
        kids: Vec::new(alloc),
    }
}
