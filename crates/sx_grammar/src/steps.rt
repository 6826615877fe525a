//! The steps from a sort to the sorts of parts that may be all that it derives.

ghost use Rattle.std.specs.Prelude.{◌≡◌, ℕ, ◌<◌, ◌⊎◌, length, Some, Contains};
ghost use Rattle.std.specs.Prelude.{MatchOption, OnOk, IfOk};
ghost use Rattle.sx_grammar.specs.declared.numbered.NumberedProduction.{NumberedProduction};
ghost use Rattle.sx_grammar.specs.Cycles.{list_at, unmarked, IsPartOpen, IsTarget, HasStep};
ghost use Rattle.sx_grammar.specs.Cycles.{HaveSortsBelow};

use crate::empty_sorts::{is_marked, unmarked};
use crate::numbered::{NumberedProduction, NumberedSymbol};
use std::alloc::{AllocError, Global};

/// The sort of the part that the symbol is, where all other symbols are parts of marked sorts and
/// `count` symbols are not.
fn target(symbol: &NumberedSymbol, count: usize, marks: &[bool]) -> Option<usize>
    ensures { MatchOption result ((t : ℕ) → ¬ (IsPartOpen marks.now count symbol.now t))
        (λ t. IsPartOpen marks.now count symbol.now t) }
{
    let NumberedSymbol::Part { sort, least: _ } = symbol else {
        return None;
    };
    let own = if is_marked(marks, symbol) { 0 } else { 1 };
    if count == own {
        Some(*sort as usize)
    } else {
        None
    }
}

/// Adds the number to the list at the place.
fn file(lists: &mut Vec<Vec<usize>>, place: usize, item: usize) -> Result<(), AllocError>
    requires { place < length lists.old.items }
    ensures same { length lists.new.items ≡ length lists.old.items }
    ensures there { OnOk result (Contains (list_at lists.new.items place) item) }
    ensures kept { (p x : ℕ) → Contains (list_at lists.old.items p) x →
        Contains (list_at lists.new.items p) x }
    ensures only { OnOk result ((p x : ℕ) → Contains (list_at lists.new.items p) x →
        Contains (list_at lists.old.items p) x ⊎ ((p ≡ place) × (x ≡ item))) }
{
    lists[place].push(item)?;
    Ok(())
}

/// Adds the steps of the production.
fn add_steps(
    production: &NumberedProduction,
    marks: &[bool],
    steps: &mut Vec<Vec<usize>>,
) -> Result<(), AllocError>
    requires { production.now.sort < length steps.old.items }
    ensures same { length steps.new.items ≡ length steps.old.items }
    ensures kept { (p x : ℕ) → Contains (list_at steps.old.items p) x →
        Contains (list_at steps.new.items p) x }
    ensures only { OnOk result ((p x : ℕ) → Contains (list_at steps.new.items p) x →
        Contains (list_at steps.old.items p) x ⊎
        ((p ≡ production.now.sort) × IsTarget marks.now production.now.symbols.items x)) }
    ensures all { OnOk result ((x : ℕ) → IsTarget marks.now production.now.symbols.items x →
        Contains (list_at steps.new.items production.now.sort) x) }
{
    let count = unmarked(marks, &production.symbols);
    for symbol in &production.symbols {
        if let Some(sort) = target(symbol, count, marks) {
            file(steps, production.sort as usize, sort)?;
        }
    }
    Ok(())
}

/// The steps of each sort, where exactly the sorts that derive the empty list are marked.
pub(crate) fn steps(
    alloc: Global,
    productions: &[NumberedProduction],
    marks: &[bool],
    sorts: usize,
) -> Result<Vec<Vec<usize>>, AllocError>
    requires { HaveSortsBelow sorts productions.now }
    ensures same { IfOk result (λ lists. length lists.items ≡ sorts) }
    ensures only { IfOk result (λ lists. (sort other : ℕ) →
        Contains (list_at lists.items sort) other → HasStep marks.now productions.now sort other) }
    ensures all { IfOk result (λ lists. (sort other : ℕ) →
        HasStep marks.now productions.now sort other → Contains (list_at lists.items sort) other) }
{
    let mut lists = Vec::new(alloc);
    for _ in 0..sorts {
        lists.push(Vec::new(alloc))?;
    }
    for production in productions {
        add_steps(production, marks, &mut lists)?;
    }
    Ok(lists)
}
