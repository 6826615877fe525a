//! The sorts that derive the empty list.

ghost use Rattle.std.specs.Prelude.{◌≡◌, ℕ, ◌<◌, length, slice_index_or, map};
ghost use Rattle.std.specs.Prelude.{is_some, false, List, MatchOption, IsFalse, IfOk};
ghost use Rattle.sx_grammar.specs.Grammar.{Grammar};
ghost use Rattle.sx_grammar.specs.Numbered.{AreOf};
ghost use Rattle.sx_grammar.specs.Cycles.{AreEmptySorts, IsClosed, is_marked, unmarked, ArePartsOf};
ghost use Rattle.sx_grammar.specs.Cycles.{AreRulesOf, HaveSortsBelow, HavePartsBelow};

use crate::follow::follow;
use crate::numbered::{NumberedProduction, NumberedSymbol};
use crate::rule::Rule;
use std::alloc::{AllocError, Global};

/// Whether the sort is marked.
pub(crate) fn is_marked_sort(marks: &[bool], sort: usize) -> bool
    ensures { result ≡ slice_index_or marks.now sort false }
{
    sort < marks.len() && marks[sort]
}

/// No sort is marked.
pub(crate) fn no_marks(alloc: Global, sorts: usize) -> Result<Vec<bool>, AllocError>
    ensures size { IfOk result (λ v. length v.items ≡ sorts) }
    ensures none { IfOk result (λ v. (sort : ℕ) → IsFalse (slice_index_or v.items sort false)) }
{
    Vec::from_elem(alloc, false, sorts)
}

/// Whether the symbol is a part of a marked sort.
pub(crate) fn is_marked(marks: &[bool], symbol: &NumberedSymbol) -> bool
    ensures { result ≡ is_marked marks.now symbol.now }
{
    match symbol {
        NumberedSymbol::Part { sort, least: _ } => is_marked_sort(marks, *sort as usize),
        NumberedSymbol::Lit(_) => false,
        NumberedSymbol::Lex(_) => false,
    }
}

/// How many symbols are not parts of marked sorts.
pub(crate) fn unmarked(marks: &[bool], symbols: &[NumberedSymbol]) -> usize
    ensures { result ≡ unmarked marks.now symbols.now }
{
    let mut count = 0;
    for symbol in symbols {
        if !is_marked(marks, symbol) {
            count += 1;
        }
    }
    count
}

/// The sorts of the symbols, where all of these are parts.
fn part_sorts(alloc: Global, symbols: &[NumberedSymbol]) -> Result<Option<Vec<usize>>, AllocError>
    ensures { IfOk result (λ r. MatchOption r ((sorts : List ℕ) → ¬ (ArePartsOf symbols.now sorts))
        (λ v. ArePartsOf symbols.now v.items)) }
{
    let mut sorts = Vec::new(alloc);
    for symbol in symbols {
        let NumberedSymbol::Part { sort, least: _ } = symbol else {
            return Ok(None);
        };
        sorts.push(*sort as usize)?;
    }
    Ok(Some(sorts))
}

/// A rule for each production of parts alone: its sort derives the empty list where those of its
/// parts do.
fn empty_rules(alloc: Global, productions: &[NumberedProduction]) -> Result<Vec<Rule>, AllocError>
    ensures { IfOk result (λ v. AreRulesOf productions.now (length productions.now) v.items) }
{
    let mut rules = Vec::new(alloc);
    for production in productions {
        if let Some(needs) = part_sorts(alloc, &production.symbols)? {
            let head = production.sort as usize;
            rules.push(Rule { head, needs })?;
        }
    }
    Ok(rules)
}

/// Marks the numbers that have ranks.
fn marks(alloc: Global, ranks: &[Option<usize>]) -> Result<Vec<bool>, AllocError>
    ensures { IfOk result (λ v. v.items ≡ map is_some ranks.now) }
{
    let mut out = Vec::new(alloc);
    for rank in ranks {
        out.push(rank.is_some())?;
    }
    Ok(out)
}

/// Marks exactly the sorts that derive the empty list.
pub(crate) fn empty_sorts(
    alloc: Global,
    productions: &[NumberedProduction],
    sorts: usize,
) -> Result<Vec<bool>, AllocError>
    requires heads { HaveSortsBelow sorts productions.now }
    requires parts { HavePartsBelow sorts productions.now }
    ensures empty { IfOk result (λ marks. (g : Grammar) → AreOf g productions.now →
        AreEmptySorts g marks.items) }
    ensures closed { IfOk result (λ marks. (g : Grammar) → AreOf g productions.now →
        IsClosed g marks.items) }
{
    let rules = empty_rules(alloc, productions)?;
    let ranks = follow(alloc, &rules, sorts)?;
    marks(alloc, &ranks)
}
