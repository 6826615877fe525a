//! The names, brackets and ranks of a grammar's sorts and of one more sort.

ghost use Rattle.std.specs.Prelude.{◌≡◌, ◌++◌, ◌∷◌, [], List, Option, None, MatchOption, IfOk};
ghost use Rattle.std.specs.Prelude.{ℕ, length, IsTrue, ◌<◌, ◌↔◌};
ghost use Rattle.sx_term.specs.Cutting.{AreDistinct};
ghost use Rattle.sx_grammar.specs.declared.sort_line.SortLine.{SortLine as SortLineOf};
ghost use Rattle.sx_grammar.specs.Parts.{Line, parts, names};
ghost use Rattle.sx_grammar.specs.Order.{rank_at};
ghost use Rattle.sx_grammar.specs.Extended.{grown, listed_sort, LacksPair, blank};

use crate::grammar::Grammar;
use crate::grammar_parts::GrammarParts;
use crate::sort_line::SortLine;
use std::alloc::Global;
use sx_term::{Names, NoMemory};

/// The names with that of the sort behind them, or None where the sort has brackets or one of these
/// names.
fn names_with(alloc: Global, known: &Names, sort: &SortLine) -> Result<Option<Names>, NoMemory>
    ensures { IfOk result (λ r. MatchOption r (Unit {0}) (λ n. (sort.now.brackets ≡ None) ×
        (n ≡ known.now ++ sort.now.name ∷ []) × (AreDistinct known.now → AreDistinct n))) }
{
    if sort.brackets.is_some() || known.number(sort.name.bytes()).is_some() {
        return Ok(None);
    }
    let mut names = known.copy()?;
    match names.push(alloc, sort.name.bytes()) {
        Ok(()) => Ok(Some(names)),
        Err(e) => {
            drop(names);
            Err(e)
        }
    }
}

/// Whether the parts have more sorts than the grammar.
pub(crate) fn has_more(base: &Grammar, from: &GrammarParts) -> bool
    ensures { IsTrue result ↔ (length base.now.parts.sorts < length (parts from.now).sorts) }
{
    base.parts.sorts.len() < from.sorts.len()
}

/// The names of the grammar's sorts and of one more sort, where there is one; or None where that
/// sort has brackets or one of these names.
pub(crate) fn names_behind(
    alloc: Global,
    base: &Grammar,
    from: &GrammarParts,
) -> Result<Option<Names>, NoMemory>
    requires { (sort : Option SortLineOf) × (more : List Line) ×
        (parts from.now ≡ grown base.now.parts (listed_sort sort) more) }
    ensures names { IfOk result (λ r. MatchOption r (Unit {0}) (λ n.
        (n ≡ names (parts from.now)) × AreDistinct n)) }
    ensures plain { IfOk result (λ r. MatchOption r (Unit {0}) (λ n.
        (sort : Option SortLineOf) (more : List Line) →
        parts from.now ≡ grown base.now.parts (listed_sort sort) more → LacksPair sort)) }
{
    if !has_more(base, from) {
        return Ok(Some(base.sort_names.copy()?));
    }
    let sort = &from.sorts[base.parts.sorts.len()];
    names_with(alloc, &base.sort_names, sort)
}

/// The ranks, and 0 for one more sort, where there is one.
pub(crate) fn ranks_with(alloc: Global, ranks: &[u32], wider: bool) -> Result<Vec<u32>, NoMemory>
    ensures { IfOk result (λ v. (sort : ℕ) → rank_at v.items sort ≡ rank_at ranks.now sort) }
{
    let mut all = Vec::from_slice(alloc, ranks)?;
    if wider {
        all.push(0)?;
    }
    Ok(all)
}

/// The brackets, and none for one more sort, where there is one.
pub(crate) fn brackets_with(
    alloc: Global,
    brackets: &[Option<(u32, u32)>],
    wider: bool,
) -> Result<Vec<Option<(u32, u32)>>, NoMemory>
    ensures { IfOk result (λ v. v.items ≡ brackets.now ++ blank wider) }
{
    let mut all = Vec::from_slice(alloc, brackets)?;
    if wider {
        all.push(None)?;
    }
    Ok(all)
}
