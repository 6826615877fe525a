//! Levels of sorts, and the brackets that they ask for.

ghost use Rattle.std.specs.Prelude.{◌≡◌, ℕ, List, ◌<◌, ◌↔◌, length, slice_index_or, max, min, None};
ghost use Rattle.std.specs.Prelude.{IsTrue, IfOk, OnOk, IfErr};
ghost use Rattle.sx_grammar.specs.declared.numbered.NumberedProduction as numbered;
ghost use Rattle.sx_grammar.specs.Parts.{parts};
ghost use Rattle.sx_grammar.specs.Tables.{AreNumbered};
ghost use Rattle.sx_grammar.specs.Cycles.{HaveSortsBelow, HavePartsBelow};
ghost use Rattle.sx_grammar.specs.Levels.{raised_by, greatest_after, least_after};
ghost use Rattle.sx_grammar.specs.Levels.{ArePartsBelow, AreGreatest, AreLeast};
ghost use Rattle.sx_grammar.specs.Made.{KeepsSorts, HasBrackets, IsGrammarRefused};

use crate::grammar_error::GrammarError;
use crate::grammar_parts::GrammarParts;
use crate::numbered::{NumberedProduction, NumberedSymbol};
use crate::sort_line::SortLine;
use std::alloc::{AllocError, Global};

/// Raises the greatest level asked for of each sort to those that the symbols ask for.
fn raise(levels: &mut [u8], symbols: &[NumberedSymbol])
    requires { ArePartsBelow (length levels.old) symbols.now }
    ensures { levels.new ≡ raised_by levels.old symbols.now }
{
    for symbol in symbols {
        if let NumberedSymbol::Part { sort, least } = symbol {
            let i = *sort as usize;
            levels[i] = levels[i].max(*least);
        }
    }
}

/// The same to those that the symbols of the productions ask for.
fn raise_all(levels: &mut [u8], productions: &[NumberedProduction])
    requires { HavePartsBelow (length levels.old) productions.now }
    ensures { levels.new ≡ greatest_after levels.old productions.now }
{
    for production in productions {
        raise(levels, &production.symbols);
    }
}

/// Lowers the least level of each sort to those of its productions.
fn lower_all(levels: &mut [u8], productions: &[NumberedProduction])
    requires { HaveSortsBelow (length levels.old) productions.now }
    ensures { levels.new ≡ least_after levels.old productions.now }
{
    for production in productions {
        let i = production.sort as usize;
        levels[i] = levels[i].min(production.level);
    }
}

/// The level, for each sort.
fn all_at(alloc: Global, level: u8, sorts: usize) -> Result<Vec<u8>, AllocError>
    ensures size { IfOk result (λ v. length v.items ≡ sorts) }
    ensures all { IfOk result (λ v. (sort : ℕ) → slice_index_or v.items sort level ≡ level) }
{
    Vec::from_elem(alloc, level, sorts)
}

/// The greatest level that parts ask for of each sort, or 0.
fn greatest_levels(
    alloc: Global,
    productions: &[NumberedProduction],
    sorts: usize,
) -> Result<Vec<u8>, AllocError>
    requires { HavePartsBelow sorts productions.now }
    ensures size { IfOk result (λ v. length v.items ≡ sorts) }
    ensures greatest { IfOk result (λ v. AreGreatest productions.now v.items) }
{
    let mut levels = all_at(alloc, 0, sorts)?;
    raise_all(&mut levels, productions);
    Ok(levels)
}

/// The least level of the productions of each sort, or 255.
fn least_levels(
    alloc: Global,
    productions: &[NumberedProduction],
    sorts: usize,
) -> Result<Vec<u8>, AllocError>
    requires { HaveSortsBelow sorts productions.now }
    ensures size { IfOk result (λ v. length v.items ≡ sorts) }
    ensures least { IfOk result (λ v. AreLeast productions.now v.items) }
{
    let mut levels = all_at(alloc, 255, sorts)?;
    lower_all(&mut levels, productions);
    Ok(levels)
}

/// Whether the sort has no brackets, where this level is asked for of it and its productions have
/// at least that level.
fn lacks_brackets(sort: &SortLine, asked: u8, least: u8) -> bool
    ensures is { IsTrue result ↔ ((sort.now.brackets ≡ None) × (least < asked)) }
    ensures range { asked < 256 }
{
    sort.brackets.is_none() && least < asked
}

/// The same by the greatest level that parts ask for of each sort, and the least level of its
/// productions.
fn has_brackets_at(
    alloc: Global,
    from: &GrammarParts,
    asked: &[u8],
    least: &[u8],
) -> Result<(), GrammarError>
    requires sorts { KeepsSorts (parts from.now) }
    requires asked_size { length asked.now ≡ length from.now.sorts.items }
    requires least_size { length least.now ≡ length from.now.sorts.items }
    requires levels { (ps : List numbered.NumberedProduction) × AreNumbered (parts from.now) ps ×
        AreGreatest ps asked.now × AreLeast ps least.now }
    ensures good { OnOk result (HasBrackets (parts from.now)) }
    ensures refused { IfErr result (IsGrammarRefused (parts from.now)) }
{
    for i in 0..from.sorts.len() {
        let sort = &from.sorts[i];
        if lacks_brackets(sort, asked[i], least[i]) {
            return Err(GrammarError::NoBrackets(sort.name.copy(alloc)?));
        }
    }
    Ok(())
}

/// Whether each sort has the brackets that are asked for; else NoBrackets.
pub(crate) fn has_brackets(
    alloc: Global,
    from: &GrammarParts,
    productions: &[NumberedProduction],
) -> Result<(), GrammarError>
    requires sorts { KeepsSorts (parts from.now) }
    requires numbered { AreNumbered (parts from.now) productions.now }
    ensures good { OnOk result (HasBrackets (parts from.now)) }
    ensures refused { IfErr result (IsGrammarRefused (parts from.now)) }
{
    let asked = greatest_levels(alloc, productions, from.sorts.len())?;
    match least_levels(alloc, productions, from.sorts.len()) {
        Ok(least) => has_brackets_at(alloc, from, &asked, &least),
        Err(e) => {
            drop(asked);
            Err(GrammarError::from(e))
        }
    }
}
