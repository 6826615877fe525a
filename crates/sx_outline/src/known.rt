//! What is known of a file before its lines are judged.

ghost use Rattle.std.specs.Prelude.{◌≡◌, ◌↔◌, IsTrue, map, IfOk};
ghost use Rattle.sx_grammar.specs.Parts.{line, parts};
ghost use Rattle.sx_outline.specs.Declarations.{declared_form, declared_parts};
ghost use Rattle.sx_outline.specs.Tables.{AreTables, AreFew, declared_in};

use crate::declared_rows::DeclaredRows;
use crate::tables::Tables;
use std::alloc::Global;
use sx_directives::{FormLine, VarLine};
use sx_grammar::{GrammarParts, Production};
use sx_term::{NoMemory, Text};

/// What the lines of a file declare, found by the hash of the names.
#[derive(Drop)]
pub(crate) struct Known {
    pub(crate) rows: DeclaredRows,
    pub(crate) tables: Tables,
    ghost tabled: { AreTables (declared_in rows) tables },
    ghost few: { AreFew (declared_in rows) },
}

/// The most forms, and the most productions: a `u32` numbers them.
const MOST_ROWS: usize = 4_294_967_295;

/// Whether there are so few forms and productions.
fn are_few(rows: &DeclaredRows) -> bool
    ensures { IsTrue result ↔ AreFew (declared_in rows.now) }
{
    rows.forms.len() <= MOST_ROWS && rows.productions.len() <= MOST_ROWS
}

impl Known {
    /// What the rows declare. More forms or productions than a `u32` can number do not stand in
    /// memory.
    pub(crate) fn make(alloc: Global, rows: DeclaredRows) -> Result<Known, NoMemory>
        ensures { IfOk result (λ k. declared_in k.rows ≡ declared_in rows) }
    {
        if !are_few(&rows) {
            drop(rows);
            return Err(NoMemory::Memory);
        }
        match Tables::make(alloc, &rows) {
            Ok(tables) => Ok(Known { rows, tables }),
            Err(e) => {
                drop(rows);
                Err(e)
            }
        }
    }

    /// The parts of the grammar, the stems and the forms.
    pub(crate) fn into_parts(self) -> (GrammarParts, Vec<VarLine>, Vec<FormLine>)
        ensures parts { parts result.0 ≡ declared_parts (declared_in self.rows) }
        ensures vars { result.1.items ≡ (declared_in self.rows).vars }
        ensures forms { map declared_form result.2.items ≡ (declared_in self.rows).forms }
    {
        let Known { rows, tables } = self;
        drop(tables);
        let DeclaredRows {
            sorts,
            productions,
            vars,
            forms,
            mains,
            uses,
        } = rows;
        drop(mains);
        drop(uses);
        (GrammarParts { sorts, productions }, vars, forms)
    }

    /// The productions, the stems and the names that are used.
    pub(crate) fn into_own(self) -> (Vec<Production>, Vec<VarLine>, Vec<Text>)
        ensures productions { map line result.0.items ≡ (declared_in self.rows).productions }
        ensures vars { result.1.items ≡ (declared_in self.rows).vars }
        ensures uses { result.2.items ≡ (declared_in self.rows).uses }
    {
        let Known { rows, tables } = self;
        drop(tables);
        let DeclaredRows {
            sorts,
            productions,
            vars,
            forms,
            mains,
            uses,
        } = rows;
        drop(sorts);
        drop(forms);
        drop(mains);
        (productions, vars, uses)
    }
}
