//! The literals and names of a grammar's parts as they stand.

ghost use Rattle.std.specs.Prelude.{◌≡◌, [], ◌∷◌, ◌++◌, map, flat_map, OnOk, IfOk};
ghost use Rattle.sx_grammar.specs.Parts.{parts, line, names, literals};
ghost use Rattle.sx_grammar.specs.Standing.{labels_in, literals_in, sorts_in};
ghost use Rattle.sx_grammar.specs.Parts.{symbol_literals, symbol_sorts, bracket_literals, texts};

use crate::grammar_parts::GrammarParts;
use crate::production::Production;
use crate::sort_line::SortLine;
use crate::symbol::Symbol;
use std::alloc::{AllocError, Global};
use sx_term::Text;

/// Adds the text.
fn put<'a>(text: &'a Text, out: &mut Vec<&'a Text>) -> Result<(), AllocError>
    ensures { OnOk result (texts out.new.items ≡ texts out.old.items ++ text.now ∷ []) }
{
    out.push(text)?;
    Ok(())
}

/// Adds the literals among the symbols.
fn add_literals<'a>(symbols: &'a [Symbol], out: &mut Vec<&'a Text>) -> Result<(), AllocError>
    ensures { OnOk result (texts out.new.items ≡ texts out.old.items
        ++ flat_map symbol_literals symbols.now) }
{
    for symbol in symbols {
        if let Symbol::Lit(text) = symbol {
            put(text, out)?;
        }
    }
    Ok(())
}

/// Adds the names of the sorts of the parts among the symbols.
fn add_sorts<'a>(symbols: &'a [Symbol], out: &mut Vec<&'a Text>) -> Result<(), AllocError>
    ensures { OnOk result (texts out.new.items ≡ texts out.old.items
        ++ flat_map symbol_sorts symbols.now) }
{
    for symbol in symbols {
        if let Symbol::Part { sort, least: _ } = symbol {
            put(sort, out)?;
        }
    }
    Ok(())
}

/// Adds the literals of a bracket pair.
fn add_brackets<'a>(
    brackets: &'a Option<(Text, Text)>,
    out: &mut Vec<&'a Text>,
) -> Result<(), AllocError>
    ensures { OnOk result (texts out.new.items ≡ texts out.old.items
        ++ bracket_literals brackets.now) }
{
    if let Some((opening, closing)) = brackets {
        put(opening, out)?;
        put(closing, out)?;
    }
    Ok(())
}

/// Adds the literals of the bracket pairs of the sorts.
fn add_brackets_of<'a>(sorts: &'a [SortLine], out: &mut Vec<&'a Text>) -> Result<(), AllocError>
    ensures { OnOk result (texts out.new.items ≡ texts out.old.items
        ++ flat_map (λ s. bracket_literals s.brackets) sorts.now) }
{
    for sort in sorts {
        add_brackets(&sort.brackets, out)?;
    }
    Ok(())
}

/// Adds the literals of the productions.
fn add_literals_of<'a>(
    productions: &'a [Production],
    out: &mut Vec<&'a Text>,
) -> Result<(), AllocError>
    ensures { OnOk result (texts out.new.items ≡ texts out.old.items
        ++ flat_map (λ r. flat_map symbol_literals r.symbols) (map line productions.now)) }
{
    for production in productions {
        add_literals(&production.symbols, out)?;
    }
    Ok(())
}

/// The brackets and literals in order, sorts before productions.
pub(crate) fn literals(alloc: Global, from: &GrammarParts) -> Result<Vec<&Text>, AllocError>
    ensures { IfOk result (λ v. texts v.items ≡ literals (parts from.now)) }
{
    let mut out = Vec::new(alloc);
    add_brackets_of(&from.sorts, &mut out)?;
    add_literals_of(&from.productions, &mut out)?;
    Ok(out)
}

/// The literals of the productions in order.
pub(crate) fn literals_in(
    alloc: Global,
    productions: &[Production],
) -> Result<Vec<&Text>, AllocError>
    ensures { IfOk result (λ v. texts v.items ≡ literals_in (map line productions.now)) }
{
    let mut out = Vec::new(alloc);
    add_literals_of(productions, &mut out)?;
    Ok(out)
}

/// The names of the sorts that the productions name, in order.
pub(crate) fn sorts_named(
    alloc: Global,
    productions: &[Production],
) -> Result<Vec<&Text>, AllocError>
    ensures { IfOk result (λ v. texts v.items ≡ sorts_in (map line productions.now)) }
{
    let mut out = Vec::new(alloc);
    for production in productions {
        put(&production.sort, &mut out)?;
        add_sorts(&production.symbols, &mut out)?;
    }
    Ok(out)
}

/// The names of the sorts in order.
pub(crate) fn names(alloc: Global, from: &GrammarParts) -> Result<Vec<&Text>, AllocError>
    ensures { IfOk result (λ v. texts v.items ≡ names (parts from.now)) }
{
    let mut out = Vec::new(alloc);
    for sort in &from.sorts {
        put(&sort.name, &mut out)?;
    }
    Ok(out)
}

/// The labels of the productions in order.
pub(crate) fn labels(alloc: Global, productions: &[Production]) -> Result<Vec<&Text>, AllocError>
    ensures { IfOk result (λ v. texts v.items ≡ labels_in (map line productions.now)) }
{
    let mut out = Vec::new(alloc);
    for production in productions {
        put(&production.label, &mut out)?;
    }
    Ok(out)
}
