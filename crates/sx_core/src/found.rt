//! What the lines of a core file declare, up to some line.

ghost use Rattle.std.specs.Prelude.{Contains, OnOk};
ghost use Rattle.sx_term.specs.Shapes.{shape};
ghost use Rattle.sx_rules.specs.Views.{form};
ghost use Rattle.sx_core.specs.Machine.{AddsSort, AddsCon, AddsForm};

use crate::form_table::FormTable;
use crate::rows::{ConRow, SortRow};
use crate::sort_table::SortTable;
use std::alloc::Global;
use sx_rules::Form;
use sx_term::{Con, Names, NoMemory, Shapes, Text};

/// The sorts of the whole file, the names of sorts that are taken so far, and the constructors and
/// the forms so far.
#[derive(Drop)]
pub(crate) struct Found {
    pub sorts: SortTable,
    pub taken: Names,
    pub con_names: Names,
    pub cons: Vec<Text>,
    pub shapes: Shapes,
    pub forms: FormTable,
}

/// Takes the name of one more sort.
pub(crate) fn add_sort(alloc: Global, found: &mut Found, row: &SortRow) -> Result<(), NoMemory>
    requires { Contains found.old.taken row.now.name → ⊥ }
    ensures { OnOk result (AddsSort found.old found.new row.now.name) }
{
    found.taken.push(alloc, row.name.bytes())?;
    Ok(())
}

/// Adds one more constructor.
pub(crate) fn add_con(
    alloc: Global,
    found: &mut Found,
    row: &ConRow,
    con: Con,
) -> Result<(), NoMemory>
    requires { Contains found.old.con_names row.now.name → ⊥ }
    ensures { OnOk result (AddsCon found.old found.new row.now.name (shape con)) }
{
    found.con_names.push(alloc, row.name.bytes())?;
    found.cons.push(row.name.copy(alloc)?)?;
    found.shapes.cons.push(con)?;
    Ok(())
}

/// The most forms. A `u32` numbers them, and so many do not stand in memory.
const MOST_FORMS: usize = 4_294_967_295;

/// Adds one more form.
pub(crate) fn add_form(alloc: Global, found: &mut Found, one: Form) -> Result<(), NoMemory>
    requires { Contains found.old.forms.names one.name → ⊥ }
    ensures { OnOk result (AddsForm found.old found.new (form one)) }
{
    if found.forms.forms.len() >= MOST_FORMS {
        drop(one);
        return Err(NoMemory::Memory);
    }
    found.forms.names.push(alloc, one.name.bytes())?;
    found.forms.forms.push(one)?;
    Ok(())
}
