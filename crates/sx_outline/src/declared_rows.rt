//! What the lines of a language file or of an extension file declare.

ghost use Rattle.std.specs.Prelude.{◌≡◌, [], ◌∷◌, ◌++◌, IfOk, OnOk};
ghost use Rattle.sx_outline.specs.Declarations.{declare, declared_before, nothing};
ghost use Rattle.sx_outline.specs.Tables.{declared_in};

use std::alloc::Global;
use sx_directives::{FormLine, MainLine, Row, VarLine};
use sx_grammar::{Production, SortLine, copy_sorts};
use sx_term::{NoMemory, Text};

/// Sorts, productions, stems, forms and main lines, each in the order of their lines, and the names
/// that the first lines use.
#[derive(Drop)]
pub(crate) struct DeclaredRows {
    pub sorts: Vec<SortLine>,
    pub productions: Vec<Production>,
    pub vars: Vec<VarLine>,
    pub forms: Vec<FormLine>,
    pub mains: Vec<MainLine>,
    pub uses: Vec<Text>,
}

/// Puts an item at the end of a list.
fn add<T: Drop>(list: &mut Vec<T>, item: T) -> Result<(), NoMemory>
    ensures { OnOk result (list.new.items ≡ list.old.items ++ item ∷ []) }
{
    Ok(list.push(item)?)
}

/// An equal stem with an equal sort.
fn copy_var(alloc: Global, var: &VarLine) -> Result<VarLine, NoMemory>
    ensures { IfOk result (λ v. v ≡ var.now) }
{
    Ok(VarLine {
        stem: var.stem.copy(alloc)?,
        sort: var.sort.copy(alloc)?,
    })
}

/// Fills a list that has no stems with equal ones.
fn fill_vars(alloc: Global, vars: &[VarLine], copies: &mut Vec<VarLine>) -> Result<(), NoMemory>
    requires { copies.old.items ≡ [] }
    ensures { OnOk result (copies.new.items ≡ vars.now) }
{
    for i in 0..vars.len() {
        copies.push(copy_var(alloc, &vars[i])?)?;
    }
    Ok(())
}

impl DeclaredRows {
    /// No rows. It takes no memory.
    pub(crate) fn new(alloc: Global) -> DeclaredRows
        ensures { declared_in result ≡ nothing }
    {
        DeclaredRows {
            sorts: Vec::new(alloc),
            productions: Vec::new(alloc),
            vars: Vec::new(alloc),
            forms: Vec::new(alloc),
            mains: Vec::new(alloc),
            uses: Vec::new(alloc),
        }
    }

    /// What is declared after the header of an extension file that uses these names: the sorts and
    /// the stems of its language.
    pub(crate) fn before(
        alloc: Global,
        sorts: &[SortLine],
        vars: &[VarLine],
        uses: Vec<Text>,
    ) -> Result<DeclaredRows, NoMemory>
        ensures { IfOk result (λ rows. declared_in rows
            ≡ declared_before sorts.now vars.now uses.items) }
    {
        let mut rows = DeclaredRows::new(alloc);
        rows.uses = uses;
        rows.sorts = copy_sorts(alloc, sorts)?;
        fill_vars(alloc, vars, &mut rows.vars)?;
        Ok(rows)
    }

    /// Adds a row at the end of those of its kind, where it is one that declares.
    pub(crate) fn declare(&mut self, row: Row) -> Result<(), NoMemory>
        ensures { OnOk result (declared_in self.new ≡ declare (declared_in self.old) row) }
    {
        match row {
            Row::Sort(sort) => add(&mut self.sorts, sort),
            Row::Prod(production) => add(&mut self.productions, production),
            Row::Var(var) => add(&mut self.vars, var),
            Row::Form(form) => add(&mut self.forms, form),
            Row::Main(main) => add(&mut self.mains, main),
            other => {
                drop(other);
                Ok(())
            }
        }
    }
}
