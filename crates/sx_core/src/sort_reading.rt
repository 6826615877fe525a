//! Finding the sorts of a core file.

ghost use Rattle.std.specs.Prelude.{◌≡◌, ◌+◌, ◌<◌, ◌^◌, length, [], map, IfOk, OnOk, MatchOption};
ghost use Rattle.sx_lines.specs.Left.{left as left_of};
ghost use Rattle.sx_lines.specs.Reading.{kept};
ghost use Rattle.sx_core.specs.File.{SortRow as SortOf};
ghost use Rattle.sx_core.specs.Rows.{sort_row};
ghost use Rattle.sx_core.specs.Stated.{AreStatedNames};
ghost use Rattle.sx_core.specs.Resolving.{sort_names, rows_in, IsSortTable};
ghost use Rattle.sx_core.specs.Fitting.{AreSorts};
ghost use Rattle.sx_core.specs.Machine.{IsSortLine, FindsSort};

use crate::keyword::{Keyword, split_keyword};
use crate::row_reading::read_sort;
use crate::rows::SortRow;
use crate::sort_table::SortTable;
use crate::terms_row::RowError;
use std::alloc::Global;
use sx_lines::Rest;
use sx_term::{Names, NoMemory};

/// Adds the names of the lexical sorts to no names.
fn add_lexical_names(alloc: Global, names: &mut Names) -> Result<(), NoMemory>
    requires { names.old ≡ [] }
    ensures { OnOk result (names.new ≡ sort_names []) }
{
    names.push(alloc, b"id")?;
    names.push(alloc, b"num")?;
    names.push(alloc, b"str")
}

/// The names of the lexical sorts.
pub(crate) fn lexical_names(alloc: Global) -> Result<Names, NoMemory>
    ensures { IfOk result (λ names. names ≡ sort_names []) }
{
    let mut names = Names::new(alloc);
    match add_lexical_names(alloc, &mut names) {
        Ok(()) => Ok(names),
        Err(e) => {
            drop(names);
            Err(e)
        }
    }
}

/// The sort of the line, where it is that of a sort.
fn line_sort(alloc: Global, text: &[u8]) -> Result<Option<SortRow>, NoMemory>
    ensures { IfOk result (λ found. MatchOption found ((r : SortOf) → IsSortLine text.now r → ⊥)
        (λ r. IsSortLine text.now (sort_row r))) }
{
    match split_keyword(text) {
        Some((Keyword::Sort, rest)) => match read_sort(alloc, rest) {
            Ok(row) => Ok(Some(row)),
            Err(RowError::Memory) => Err(NoMemory::Memory),
            Err(RowError::Shape) => Ok(None),
            Err(RowError::TooDeep(_)) => unreachable!(),
        },
        Some(_) => Ok(None),
        None => Ok(None),
    }
}

/// Adds the sort of the line, where it is that of a sort whose name is not taken.
fn find_sort(alloc: Global, table: &mut SortTable, text: &[u8]) -> Result<(), NoMemory>
    requires { table.old.names ≡ sort_names (rows_in table.old) }
    ensures { OnOk result (FindsSort table.old table.new text.now) }
{
    match line_sort(alloc, text)? {
        Some(row) => {
            if table.names.has(row.name.bytes()) {
                drop(row);
                return Ok(());
            }
            table.names.push(alloc, row.name.bytes())?;
            table.rows.push(row)?;
            Ok(())
        }
        None => Ok(()),
    }
}

/// The most sorts besides the lexical ones, which have the numbers 0 to 2.
const MOST_SORTS: usize = 4_294_967_292;

/// The table, where a `u32` can number each of its sorts. So many do not stand in memory.
fn numbered(table: SortTable) -> Result<SortTable, NoMemory>
    ensures { IfOk result (λ t. (t ≡ table) × (length (rows_in t) + 3 < 2 ^ 32)) }
{
    if table.rows.len() > MOST_SORTS {
        drop(table);
        return Err(NoMemory::Memory);
    }
    Ok(table)
}

/// The sorts of the file: one for each line that is that of a sort whose name is not taken,
/// wherever it stands.
pub(crate) fn find_sorts(alloc: Global, rest: Rest) -> Result<SortTable, NoMemory>
    ensures { IfOk result (λ t. IsSortTable t × AreStatedNames (map (λ row. row.name) (rows_in t)) ×
        AreSorts [] (kept (left_of rest.entry)) (rows_in t)) }
{
    let mut table = SortTable {
        names: lexical_names(alloc)?,
        rows: Vec::new(alloc),
    };
    let mut left = rest;
    'lines: loop {
        match left.next_kept() {
            Ok((line, more)) => {
                find_sort(alloc, &mut table, line.text)?;
                left = more;
            }
            Err(_) => return numbered(table),
        }
    }
}
