//! Reading the lines of a core file.

ghost use Rattle.std.specs.Prelude.{[], map, IfOk};
ghost use Rattle.sx_lines.specs.Left.{left as left_of};
ghost use Rattle.sx_lines.specs.Reading.{kept};
ghost use Rattle.sx_term.specs.Shapes.{shapes};
ghost use Rattle.sx_core.specs.Stated.{AreStatedNames};
ghost use Rattle.sx_core.specs.Resolving.{rows_in, IsSortTable};
ghost use Rattle.sx_core.specs.Fitting.{AreSorts};
ghost use Rattle.sx_core.specs.CoreRead.{AreCoreLinesRead};
ghost use Rattle.sx_core.specs.Machine.{IsReaderBegun};

use crate::error::CoreFileError;
use crate::finish::finish;
use crate::form_table::FormTable;
use crate::found::Found;
use crate::next_line::read_next;
use crate::problem::CoreProblem;
use crate::reader::Reader;
use crate::sort_reading::lexical_names;
use crate::sort_table::SortTable;
use crate::stage::Stage;
use std::alloc::Global;
use sx_lines::Rest;
use sx_term::{Names, NoMemory, Shapes};

/// The reader before the first line of a file with these sorts.
fn begin(alloc: Global, sorts: SortTable) -> Result<Reader, NoMemory>
    ensures { IfOk result (λ r. IsReaderBegun sorts r) }
{
    let taken = match lexical_names(alloc) {
        Ok(names) => names,
        Err(e) => {
            drop(sorts);
            return Err(e);
        }
    };
    let found = Found {
        sorts,
        taken,
        con_names: Names::new(alloc),
        cons: Vec::new(alloc),
        shapes: Shapes {
            cons: Vec::new(alloc),
        },
        forms: FormTable {
            names: Names::new(alloc),
            forms: Vec::new(alloc),
        },
    };
    Ok(Reader {
        found,
        rules: Vec::new(alloc),
        stage: Stage::Start,
    })
}

/// What the lines of a file with these sorts state.
pub(crate) fn read_rows(
    alloc: Global,
    sorts: SortTable,
    rest: Rest,
) -> Result<CoreProblem, CoreFileError>
    requires table { IsSortTable sorts }
    requires named { AreStatedNames (map (λ row. row.name) (rows_in sorts)) }
    requires all { AreSorts [] (kept (left_of rest)) (rows_in sorts) }
    ensures { AreCoreLinesRead (kept (left_of rest.entry)) result }
{
    let mut reader = begin(alloc, sorts)?;
    let mut left = rest;
    'lines: loop {
        match left.next_kept() {
            Ok((line, more)) => match read_next(alloc, reader, line.number, line.text) {
                Ok(next) => {
                    reader = next;
                    left = more;
                }
                Err(e) => return Err(e),
            },
            Err(none) => return finish(alloc, reader, none.number),
        }
    }
}
