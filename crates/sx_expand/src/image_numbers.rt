//! Plain images of the terms that are bound at a node, by number.

ghost use Rattle.std.specs.Prelude.{◌≡◌, ◌<◌, ◌≤◌, IfOk, length, map, get_or};
ghost use Rattle.sx_term.specs.Tree.{depth_of, forest};
ghost use Rattle.sx_rules.specs.Deep.{AreShallow};
ghost use Rattle.sx_plain.specs.Plain.{image};
ghost use Rattle.sx_plain.specs.Tables.{FitsTable, FitTable};
ghost use Rattle.sx_plain.specs.Views.{table_of};
ghost use Rattle.sx_arena.specs.Arena.{tree_at, AreBelow};
ghost use Rattle.sx_rewrite.specs.PutImages.{image_for, images_for};
ghost use Rattle.sx_expand.specs.Put.{IsPutAt, ArePutAt};
ghost use Rattle.sx_expand.specs.Readers.{terms_in, IsLoweringReader, ReaderGoesOn};
ghost use Rattle.sx_term.specs.Limits.{most_depth};

use crate::ends::number_at;
use crate::put_number::PutNumber;
use crate::put_numbers::PutNumbers;
use crate::reader::Reader;
use std::alloc::Global;
use sx_plain::{Measure, PlainTable};
use sx_term::{NoMemory, Sort, TermError};

/// What is put for variables of these sorts to which the terms with these numbers are bound: the
/// plain image of each, and a node without kids for one of a typed sort. An image is measured
/// before it is made, and made only where it passes no limit. The one refusal is out of memory.
pub(crate) fn image_numbers(
    alloc: Global,
    table: &PlainTable,
    reader: &mut Reader,
    sorts: &[Sort],
    binds: &[usize],
) -> Result<PutNumbers, NoMemory>
    requires reader { IsLoweringReader (table_of table.now) reader.old }
    requires many { length binds.now ≡ length sorts.now }
    requires below { AreBelow (length (terms_in reader.old)) binds.now }
    requires shallow { AreShallow (map (tree_at (terms_in reader.old)) binds.now) }
    requires fit { FitTable (table_of table.now)
        (forest (map (tree_at (terms_in reader.old)) binds.now)) }
    ensures { IfOk result (λ p. ReaderGoesOn (table_of table.now) reader.old reader.new
        × ArePutAt (terms_in reader.new) (images_for (table_of table.now) sorts.now
        (map (tree_at (terms_in reader.old)) binds.now)) p.numbers.items p.measures.items) }
{
    let mut numbers = Vec::with_capacity(alloc, binds.len())?;
    let mut measures = Vec::with_capacity(alloc, binds.len())?;
    for i in 0..binds.len() {
        let sort = sort_at(sorts, i);
        let put = put_image(alloc, table, reader, sort, number_at(binds, i))?;
        numbers.push(put.number)?;
        measures.push(put.measure)?;
    }
    Ok(PutNumbers { numbers, measures })
}

/// The sort at the place.
fn sort_at(sorts: &[Sort], place: usize) -> Sort
    requires { place < length sorts.now }
    ensures { result ≡ get_or sorts.now place result }
{
    sorts[place]
}

/// What is put for a variable of the sort to which the term with this number is bound.
/// The one refusal is out of memory.
fn put_image(
    alloc: Global,
    table: &PlainTable,
    reader: &mut Reader,
    sort: Sort,
    term: usize,
) -> Result<PutNumber, NoMemory>
    requires reader { IsLoweringReader (table_of table.now) reader.old }
    requires within { term < length (terms_in reader.old) }
    requires shallow { depth_of (tree_at (terms_in reader.old) term) ≤ most_depth }
    requires fits { FitsTable (table_of table.now) (tree_at (terms_in reader.old) term) }
    ensures { IfOk result (λ p. ReaderGoesOn (table_of table.now) reader.old reader.new
        × IsPutAt (terms_in reader.new)
        (image_for (table_of table.now) sort (tree_at (terms_in reader.old) term)) p) }
{
    match sort {
        Sort::Lex(_) => image_number(alloc, table, reader, term),
        Sort::Plain(_) => image_number(alloc, table, reader, term),
        Sort::Typed(_) => Ok(PutNumber {
            number: reader.arena.node(0, Vec::new(alloc))?,
            measure: Measure { depth: 1, size: 1 },
        }),
    }
}

/// The plain image of the term with this number, which is made where it passes no limit.
/// The one refusal is out of memory.
fn image_number(
    alloc: Global,
    table: &PlainTable,
    reader: &mut Reader,
    term: usize,
) -> Result<PutNumber, NoMemory>
    requires reader { IsLoweringReader (table_of table.now) reader.old }
    requires within { term < length (terms_in reader.old) }
    requires shallow { depth_of (tree_at (terms_in reader.old) term) ≤ most_depth }
    requires fits { FitsTable (table_of table.now) (tree_at (terms_in reader.old) term) }
    ensures { IfOk result (λ p. ReaderGoesOn (table_of table.now) reader.old reader.new
        × IsPutAt (terms_in reader.new)
        (image (table_of table.now) (tree_at (terms_in reader.old) term)) p) }
{
    let measure = reader.images.measure(alloc, table, &reader.arena, term)?;
    match reader.images.lower(alloc, table, &mut reader.arena, term) {
        Ok(number) => Ok(PutNumber { number, measure }),
        Err(TermError::Memory) => Err(NoMemory::Memory),
        Err(TermError::TooDeep(_) | TermError::TooBig(_)) => Ok(PutNumber {
            number: term,
            measure,
        }),
    }
}
