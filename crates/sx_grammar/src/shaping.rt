//! The shapes of productions.

ghost use Rattle.std.specs.Prelude.{◌≡◌, ◌++◌, IfOk, OnOk, slice_get, map};
ghost use Rattle.sx_term.specs.Shapes.{shape};
ghost use Rattle.sx_grammar.specs.Told.{is_typed, sort_with, numbered_kids, numbered_shape};

use crate::numbered::{NumberedProduction, NumberedSymbol};
use crate::sort_line::SortLine;
use std::alloc::Global;
use sx_term::{Con, NoMemory, Sort};

/// Whether the sort with this number is typed.
pub(crate) fn is_typed(sorts: &[SortLine], number: u32) -> bool
    ensures { result ≡ is_typed (slice_get sorts.now number) }
{
    let i = number as usize;
    if i < sorts.len() {
        return sorts[i].typed;
    }
    false
}

/// The sort with this number.
pub(crate) fn sort_with(sorts: &[SortLine], number: u32) -> Sort
    ensures { result ≡ sort_with sorts.now number }
{
    if is_typed(sorts, number) {
        return Sort::Typed(number);
    }
    Sort::Plain(number)
}

/// Adds the sort of the symbol, which a literal does not have.
fn put_kid(
    sorts: &[SortLine],
    symbol: &NumberedSymbol,
    kids: &mut Vec<Sort>,
) -> Result<(), NoMemory>
    ensures { OnOk result (kids.new.items ≡ kids.old.items ++ numbered_kids sorts.now symbol.now) }
{
    let kid = match symbol {
        NumberedSymbol::Lit(_) => return Ok(()),
        NumberedSymbol::Lex(kind) => Sort::Lex(*kind),
        NumberedSymbol::Part { sort, least: _ } => sort_with(sorts, *sort),
    };
    kids.push(kid)?;
    Ok(())
}

/// The constructor that the production is.
fn con(alloc: Global, sorts: &[SortLine], production: &NumberedProduction) -> Result<Con, NoMemory>
    ensures { IfOk result (λ c. shape c ≡ numbered_shape sorts.now production.now) }
{
    let mut kids = Vec::new(alloc);
    for symbol in &production.symbols {
        put_kid(sorts, symbol, &mut kids)?;
    }
    Ok(Con {
        sort: sort_with(sorts, production.sort),
        kids,
    })
}

/// The constructors that the productions are.
pub(crate) fn cons(
    alloc: Global,
    sorts: &[SortLine],
    productions: &[NumberedProduction],
) -> Result<Vec<Con>, NoMemory>
    ensures { IfOk result (λ v. map shape v.items
        ≡ map (numbered_shape sorts.now) productions.now) }
{
    let mut out = Vec::new(alloc);
    for production in productions {
        out.push(con(alloc, sorts, production)?)?;
    }
    Ok(out)
}
