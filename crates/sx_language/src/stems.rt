//! The stems of metavariables with their sorts.

ghost use Rattle.std.specs.Prelude.{◌≡◌, ◌<◌, ℕ, List, Some, length, slice_get, IfOk};
ghost use Rattle.std.specs.List.{AllByRecursion};
ghost use Rattle.sx_grammar.specs.Parts.{names};
ghost use Rattle.sx_directives.specs.declared.rows.VarLine.{VarLine as VarData};
ghost use Rattle.sx_language.specs.States.{IsNameOfSort, IsSortNamed, AreStems};

use std::alloc::Global;
use sx_directives::{VarLine, lexical_kind};
use sx_earley::Metas;
use sx_grammar::Grammar;
use sx_notation::sort_with;
use sx_term::{LexKind, NoMemory, Sort, Text};

/// The sort with this name.
fn sort_named(grammar: &Grammar, name: &Text) -> Sort
    requires { IsNameOfSort grammar.now.parts name.now }
    ensures { IsSortNamed grammar.now.parts name.now result }
{
    grammar.facts();
    match lexical_kind(name.bytes()) {
        Some(kind) => Sort::Lex(kind),
        None => match grammar.sort_number(name) {
            Some(number) => sort_with(grammar, number),
            None => unreachable!(),
        },
    }
}

/// The stems of the lines in order, with the sorts of the grammar that these name.
pub fn metas_of(alloc: Global, grammar: &Grammar, vars: &[VarLine]) -> Result<Metas, NoMemory>
    requires { AllByRecursion (λ v. IsNameOfSort grammar.now.parts v.sort) vars.now }
    ensures { IfOk result (λ m. AreStems grammar.now.parts vars.now m.stems.items) }
{
    let mut stems = Vec::with_capacity(alloc, vars.len())?;
    for i in 0..vars.len() {
        let var = &vars[i];
        let stem = var.stem.copy(alloc)?;
        stems.push((stem, sort_named(grammar, &var.sort)))?;
    }
    Ok(Metas { stems })
}

/// The name of the sort with this number.
fn line_name(alloc: Global, grammar: &Grammar, number: u32) -> Result<Text, NoMemory>
    requires { number < length grammar.now.parts.sorts }
    ensures { IfOk result (λ t. slice_get (names grammar.now.parts) number ≡ Some t) }
{
    let sorts = &grammar.parts().sorts;
    sorts[number as usize].name.copy(alloc)
}

/// The name of the sort.
fn name_of(alloc: Global, grammar: &Grammar, sort: Sort) -> Result<Text, NoMemory>
    requires { (name : List ℕ) × IsSortNamed grammar.now.parts name sort }
    ensures { IfOk result (λ t. IsSortNamed grammar.now.parts t sort) }
{
    match sort {
        Sort::Lex(LexKind::Id) => Text::of_utf8(alloc, b"id"),
        Sort::Lex(LexKind::Num) => Text::of_utf8(alloc, b"num"),
        Sort::Lex(LexKind::Str) => Text::of_utf8(alloc, b"str"),
        Sort::Plain(number) => line_name(alloc, grammar, number),
        Sort::Typed(number) => line_name(alloc, grammar, number),
    }
}

/// The lines of which the stems are: each stem with the name of its sort.
pub fn var_lines(alloc: Global, grammar: &Grammar, metas: &Metas) -> Result<Vec<VarLine>, NoMemory>
    requires { (vars : List VarData) × AreStems grammar.now.parts vars metas.now.stems.items }
    ensures { IfOk result (λ v. AreStems grammar.now.parts v.items metas.now.stems.items) }
{
    let mut lines = Vec::with_capacity(alloc, metas.stems.len())?;
    for i in 0..metas.stems.len() {
        let stem = &metas.stems[i];
        lines.push(VarLine {
            stem: stem.0.copy(alloc)?,
            sort: name_of(alloc, grammar, stem.1)?,
        })?;
    }
    Ok(lines)
}
