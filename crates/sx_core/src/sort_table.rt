//! Sorts, found by their names.

ghost use Rattle.std.specs.Prelude.{◌≡◌, ℕ, ◌<◌, List, Some, None, slice_get};
ghost use Rattle.std.specs.Prelude.{MatchOption, MatchResult, map};
ghost use Rattle.sx_term.specs.declared.sort.Sort.{Sort as SortOf};
ghost use Rattle.sx_core.specs.Rows.{sort_row};
ghost use Rattle.sx_core.specs.Stated.{NamesSort, NameSorts};
ghost use Rattle.sx_core.specs.Resolving.{sort_names, rows_in, IsSortTable, NoCoreRowIs};

use crate::rows::SortRow;
use crate::terms_row::RowError;
use std::alloc::Global;
use sx_term::{LexKind, Names, Sort, Text};

/// The sorts of a core file with the number of each name: first the lexical ones, then those of the
/// rows.
#[derive(Drop)]
pub(crate) struct SortTable {
    pub names: Names,
    pub rows: Vec<SortRow>,
}

/// The sort of the row with this number.
fn row_sort(rows: &[SortRow], i: u32) -> Option<Sort>
    ensures { MatchOption result (slice_get (map sort_row rows.now) i ≡ None)
        (λ s. (name : List ℕ) → slice_get (map (λ row. row.name) (map sort_row rows.now)) i
        ≡ Some name → NamesSort (map sort_row rows.now) name s) }
{
    let at = i as usize;
    if at < rows.len() {
        let row = &rows[at];
        if row.typed {
            return Some(Sort::Typed(i));
        }
        return Some(Sort::Plain(i));
    }
    None
}

/// The sort with this number among all.
fn sort_at(rows: &[SortRow], number: u32) -> Option<Sort>
    ensures { MatchOption result (slice_get (sort_names (map sort_row rows.now)) number ≡ None)
        (λ s. (name : List ℕ) → slice_get (sort_names (map sort_row rows.now)) number ≡ Some name →
        NamesSort (map sort_row rows.now) name s) }
{
    if number == 0 {
        return Some(Sort::Lex(LexKind::Id));
    }
    if number == 1 {
        return Some(Sort::Lex(LexKind::Num));
    }
    if number == 2 {
        return Some(Sort::Lex(LexKind::Str));
    }
    row_sort(rows, number - 3)
}

impl SortTable {
    /// The sort that the name stands for.
    pub(crate) fn sort(&self, name: &Text) -> Option<Sort>
        requires { IsSortTable self.now }
        ensures { MatchOption result ((s : SortOf) → NamesSort (rows_in self.now) name.now s → ⊥)
            (λ s. NamesSort (rows_in self.now) name.now s) }
    {
        match self.names.number(name.bytes()) {
            Some(number) => sort_at(&self.rows, number as u32),
            None => None,
        }
    }

    /// The sorts that the names stand for.
    pub(crate) fn sorts(&self, alloc: Global, names: &[Text]) -> Result<Vec<Sort>, RowError>
        requires { IsSortTable self.now }
        ensures { MatchResult result (λ sorts. NameSorts (rows_in self.now) names.now sorts.items)
            (λ e. NoCoreRowIs (NameSorts (rows_in self.now) names.now) e) }
    {
        let mut sorts = Vec::new(alloc);
        for i in 0..names.len() {
            match self.sort(&names[i]) {
                Some(sort) => sorts.push(sort)?,
                None => return Err(RowError::Shape),
            }
        }
        Ok(sorts)
    }
}
