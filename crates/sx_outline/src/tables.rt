//! The tables of the names that a file declares and uses.

ghost use Rattle.std.specs.Prelude.{[], map, IfOk, OnOk};
ghost use Rattle.sx_grammar.specs.Parts.{line};
ghost use Rattle.sx_outline.specs.Declarations.{declared_form, nothing};
ghost use Rattle.sx_outline.specs.Tables.{ArePlaces, AreTables, declared_in};

use crate::declared_rows::DeclaredRows;
use crate::places::Places;
use std::alloc::Global;
use sx_directives::{FormLine, VarLine};
use sx_grammar::{Production, SortLine};
use sx_term::{NoMemory, Text};

/// The first places of the names of sorts, of labels, of stems, of the names of forms and of the
/// names that are used.
#[derive(Drop)]
pub(crate) struct Tables {
    pub sorts: Places,
    pub labels: Places,
    pub stems: Places,
    pub forms: Places,
    pub uses: Places,
}

/// Puts the places of the names of sorts into a table without names.
fn put_sorts(alloc: Global, sorts: &[SortLine], places: &mut Places) -> Result<(), NoMemory>
    requires { ArePlaces [] places.old }
    ensures { OnOk result (ArePlaces (map (λ s. s.name) sorts.now) places.new) }
{
    for i in 0..sorts.len() {
        let sort = &sorts[i];
        places.push(alloc, &sort.name, i)?;
    }
    Ok(())
}

/// Puts the places of labels into a table without names.
fn put_labels(
    alloc: Global,
    productions: &[Production],
    places: &mut Places,
) -> Result<(), NoMemory>
    requires { ArePlaces [] places.old }
    ensures { OnOk result (ArePlaces (map (λ p. p.label) (map line productions.now)) places.new) }
{
    for i in 0..productions.len() {
        let production = &productions[i];
        places.push(alloc, &production.label, i)?;
    }
    Ok(())
}

/// Puts the places of stems into a table without names.
fn put_stems(alloc: Global, vars: &[VarLine], places: &mut Places) -> Result<(), NoMemory>
    requires { ArePlaces [] places.old }
    ensures { OnOk result (ArePlaces (map (λ v. v.stem) vars.now) places.new) }
{
    for i in 0..vars.len() {
        let var = &vars[i];
        places.push(alloc, &var.stem, i)?;
    }
    Ok(())
}

/// Puts the places of the names of forms into a table without names.
fn put_forms(alloc: Global, forms: &[FormLine], places: &mut Places) -> Result<(), NoMemory>
    requires { ArePlaces [] places.old }
    ensures { OnOk result (ArePlaces (map (λ f. f.name) (map declared_form forms.now)) places.new) }
{
    for i in 0..forms.len() {
        let form = &forms[i];
        places.push(alloc, &form.name, i)?;
    }
    Ok(())
}

/// Puts the places of the names that are used into a table without names.
fn put_uses(alloc: Global, uses: &[Text], places: &mut Places) -> Result<(), NoMemory>
    requires { ArePlaces [] places.old }
    ensures { OnOk result (ArePlaces uses.now places.new) }
{
    for i in 0..uses.len() {
        let name = &uses[i];
        places.push(alloc, name, i)?;
    }
    Ok(())
}

impl Tables {
    /// Tables without names. They take no memory.
    fn new(alloc: Global) -> Tables
        ensures { AreTables nothing result }
    {
        Tables {
            sorts: Places::new(alloc),
            labels: Places::new(alloc),
            stems: Places::new(alloc),
            forms: Places::new(alloc),
            uses: Places::new(alloc),
        }
    }

    /// Puts what the rows declare into tables without names.
    fn put(&mut self, alloc: Global, rows: &DeclaredRows) -> Result<(), NoMemory>
        requires { AreTables nothing self.old }
        ensures { OnOk result (AreTables (declared_in rows.now) self.new) }
    {
        put_sorts(alloc, &rows.sorts, &mut self.sorts)?;
        put_labels(alloc, &rows.productions, &mut self.labels)?;
        put_stems(alloc, &rows.vars, &mut self.stems)?;
        put_forms(alloc, &rows.forms, &mut self.forms)?;
        put_uses(alloc, &rows.uses, &mut self.uses)?;
        Ok(())
    }

    /// The tables of what the rows declare.
    pub(crate) fn make(alloc: Global, rows: &DeclaredRows) -> Result<Tables, NoMemory>
        ensures { IfOk result (AreTables (declared_in rows.now)) }
    {
        let mut tables = Tables::new(alloc);
        match tables.put(alloc, rows) {
            Ok(()) => Ok(tables),
            Err(e) => {
                drop(tables);
                Err(e)
            }
        }
    }
}
