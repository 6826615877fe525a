//! The tables of a grammar with more sorts and productions, made of the tables of that grammar.

ghost use Rattle.std.specs.Prelude.{◌≡◌, ◌≤◌, ℕ, List, Option, map, length, IfOk, IfErr};
ghost use Rattle.sx_term.specs.Cutting.{AreDistinct};
ghost use Rattle.sx_grammar.specs.declared.sort_line.SortLine.{SortLine as SortLineOf};
ghost use Rattle.sx_grammar.specs.Parts.{Line, line, parts, names};
ghost use Rattle.sx_grammar.specs.Extended.{extended, grown, listed_sort, GrammarGrows};
ghost use Rattle.sx_grammar.specs.Tables.{literals_of, IsWithinLimits, IsTabled};
ghost use Rattle.sx_grammar.specs.Made.{HasLabels, IsGrammarRefused};

use crate::additions::are_well_named;
use crate::distinct::distinct_behind;
use crate::grammar::Grammar;
use crate::grammar_error::GrammarError;
use crate::grammar_parts::GrammarParts;
use crate::make::tables;
use crate::more_sorts::names_behind;
use crate::numbered_behind::numbered_behind;
use crate::numbered_parts::NumberedParts;
use crate::production::Production;
use crate::standing::literals_in;
use crate::tables::Tables;
use std::alloc::Global;
use sx_term::{Names, NoMemory, Text};

/// The literals of the grammar, and behind these those of more productions; and the same as names.
fn literals_behind(
    alloc: Global,
    base: &Grammar,
    more: &[Production],
) -> Result<(Vec<Text>, Names), NoMemory>
    ensures texts { IfOk result (λ r. r.0.items
        ≡ literals_of (extended base.now.parts (map line more.now))) }
    ensures names { IfOk result (λ r. r.1
        ≡ literals_of (extended base.now.parts (map line more.now))) }
{
    let list = literals_in(alloc, more)?;
    distinct_behind(alloc, &base.literals, &base.literal_names, &list)
}

/// The literals and what is numbered of the parts, which are those of the grammar with more behind
/// them, and whose literals and names are good; or why they are no grammar.
fn all_behind(
    alloc: Global,
    base: &Grammar,
    from: &GrammarParts,
    sorts: &Names,
    more: &[Production],
) -> Result<(Vec<Text>, Names, NumberedParts), GrammarError>
    requires behind { GrammarGrows base.now.parts (map line more.now) (parts from.now) }
    requires labels { HasLabels (parts from.now) }
    requires sorts { sorts.now ≡ names (parts from.now) }
    requires limits { IsWithinLimits (parts from.now) }
    ensures tables { IfOk result (λ r. (base : ℕ) → base ≤ length (parts from.now).productions
        → IsTabled (parts from.now) base r.0.items r.2.productions.items r.2.brackets.items
        sorts.now r.1 r.2.ranks.items) }
    ensures refused { IfErr result (IsGrammarRefused (parts from.now)) }
{
    let (literals, literal_names) = literals_behind(alloc, base, more)?;
    match numbered_behind(alloc, base, from, sorts, &literal_names, more) {
        Ok(numbered) => Ok((literals, literal_names, numbered)),
        Err(e) => {
            drop(literal_names);
            drop(literals);
            Err(e)
        }
    }
}

/// The tables of the parts, which are those of the grammar with more behind them, and whose
/// literals and names are good, where these are the names of the sorts; or why they are no grammar.
fn tables_named(
    alloc: Global,
    base: &Grammar,
    from: &GrammarParts,
    sort_names: Names,
    more: &[Production],
) -> Result<Tables, GrammarError>
    requires behind { GrammarGrows base.now.parts (map line more.now) (parts from.now) }
    requires labels { HasLabels (parts from.now) }
    requires sorts { sort_names ≡ names (parts from.now) }
    requires limits { IsWithinLimits (parts from.now) }
    ensures tables { IfOk result (λ t. (base : ℕ) → base ≤ length (parts from.now).productions
        → IsTabled (parts from.now) base t.literals.items t.productions.items t.brackets.items
        t.sort_names t.literal_names t.ranks.items) }
    ensures refused { IfErr result (IsGrammarRefused (parts from.now)) }
{
    match all_behind(alloc, base, from, &sort_names, more) {
        Ok((literals, literal_names, numbered)) => Ok(Tables {
            literals,
            productions: numbered.productions,
            brackets: numbered.brackets,
            sort_names,
            literal_names,
            ranks: numbered.ranks,
        }),
        Err(e) => {
            drop(sort_names);
            Err(e)
        }
    }
}

/// The same, where the literals and the names of the productions may be bad.
fn tables_sorted(
    alloc: Global,
    base: &Grammar,
    from: &GrammarParts,
    sort_names: Names,
    more: &[Production],
) -> Result<Tables, GrammarError>
    requires behind { GrammarGrows base.now.parts (map line more.now) (parts from.now) }
    requires sorts { sort_names ≡ names (parts from.now) }
    requires distinct { AreDistinct sort_names }
    requires limits { IsWithinLimits (parts from.now) }
    ensures tables { IfOk result (λ t. (base : ℕ) → base ≤ length (parts from.now).productions
        → IsTabled (parts from.now) base t.literals.items t.productions.items t.brackets.items
        t.sort_names t.literal_names t.ranks.items) }
    ensures refused { IfErr result (IsGrammarRefused (parts from.now)) }
{
    match are_well_named(alloc, base, &sort_names, more) {
        Ok(true) => tables_named(alloc, base, from, sort_names, more),
        Ok(false) => {
            drop(sort_names);
            tables(alloc, from)
        }
        Err(e) => {
            drop(sort_names);
            Err(GrammarError::from(e))
        }
    }
}

/// The tables of the parts, which are those of the grammar with one more sort or none and more
/// productions behind them; or why they are no grammar.
pub(crate) fn tables_behind(
    alloc: Global,
    base: &Grammar,
    from: &GrammarParts,
) -> Result<Tables, GrammarError>
    requires behind { (sort : Option SortLineOf) × (more : List Line) ×
        (parts from.now ≡ grown base.now.parts (listed_sort sort) more) }
    requires limits { IsWithinLimits (parts from.now) }
    ensures tables { IfOk result (λ t. (base : ℕ) → base ≤ length (parts from.now).productions
        → IsTabled (parts from.now) base t.literals.items t.productions.items t.brackets.items
        t.sort_names t.literal_names t.ranks.items) }
    ensures refused { IfErr result (IsGrammarRefused (parts from.now)) }
{
    let (_own, more) = from.productions.split_at(base.parts.productions.len());
    match names_behind(alloc, base, from)? {
        Some(sort_names) => tables_sorted(alloc, base, from, sort_names, more),
        None => tables(alloc, from),
    }
}
