//! What a grammar is made of.

ghost use Rattle.std.specs.Prelude.{◌≡◌, [], OnOk, IfOk, map};
ghost use Rattle.sx_grammar.specs.Parts.{line, parts};

use crate::production::Production;
use crate::sort_line::SortLine;
use std::alloc::Global;
use sx_term::NoMemory;

/// Sorts and productions. A sort's number and a label's number are their places.
#[derive(Drop)]
pub struct GrammarParts {
    pub sorts: Vec<SortLine>,
    pub productions: Vec<Production>,
}

/// Fills a list that has no sorts with equal ones.
fn fill_sorts(alloc: Global, sorts: &[SortLine], copies: &mut Vec<SortLine>) -> Result<(), NoMemory>
    requires { copies.old.items ≡ [] }
    ensures { OnOk result (copies.new.items ≡ sorts.now) }
{
    for i in 0..sorts.len() {
        copies.push(sorts[i].copy(alloc)?)?;
    }
    Ok(())
}

/// Equal sorts. The one refusal is out of memory.
pub fn copy_sorts(alloc: Global, sorts: &[SortLine]) -> Result<Vec<SortLine>, NoMemory>
    ensures { IfOk result (λ v. v.items ≡ sorts.now) }
{
    let mut copies = Vec::with_capacity(alloc, sorts.len())?;
    match fill_sorts(alloc, sorts, &mut copies) {
        Ok(()) => Ok(copies),
        Err(e) => {
            drop(copies);
            Err(e)
        }
    }
}

/// Fills a list that has no productions with equal ones.
fn fill_productions(
    alloc: Global,
    productions: &[Production],
    copies: &mut Vec<Production>,
) -> Result<(), NoMemory>
    requires { copies.old.items ≡ [] }
    ensures { OnOk result (map line copies.new.items ≡ map line productions.now) }
{
    for i in 0..productions.len() {
        copies.push(productions[i].copy(alloc)?)?;
    }
    Ok(())
}

/// Equal productions. The one refusal is out of memory.
pub fn copy_productions(
    alloc: Global,
    productions: &[Production],
) -> Result<Vec<Production>, NoMemory>
    ensures { IfOk result (λ v. map line v.items ≡ map line productions.now) }
{
    let mut copies = Vec::with_capacity(alloc, productions.len())?;
    match fill_productions(alloc, productions, &mut copies) {
        Ok(()) => Ok(copies),
        Err(e) => {
            drop(copies);
            Err(e)
        }
    }
}

impl GrammarParts {
    /// Equal sorts and productions. The one refusal is out of memory.
    pub fn copy(&self, alloc: Global) -> Result<GrammarParts, NoMemory>
        ensures { IfOk result (λ p. parts p ≡ parts self.now) }
    {
        Ok(GrammarParts {
            sorts: copy_sorts(alloc, &self.sorts)?,
            productions: copy_productions(alloc, &self.productions)?,
        })
    }
}
