//! Numbers in place of names and literals.

ghost use Rattle.std.specs.Prelude.{◌≡◌, ◌<◌, ◌^◌, map, length, slice_get, Some, Contains, IfOk};
ghost use Rattle.std.specs.Prelude.{[], ◌∷◌};
ghost use Rattle.sx_grammar.specs.declared.symbol.Symbol.{Symbol as SymbolOf};
ghost use Rattle.sx_grammar.specs.declared.production.Production.{Production as ProductionOf};
ghost use Rattle.sx_grammar.specs.declared.sort_line.SortLine.{SortLine as SortLineOf};
ghost use Rattle.sx_grammar.specs.Parts.{number_of, line, numbered_symbol, numbered_line};
ghost use Rattle.sx_grammar.specs.Parts.{numbered_pair};
ghost use Rattle.sx_grammar.specs.Numbered as plain;
ghost use Rattle.sx_grammar.specs.Tables.{HaveLiteralsBelow, IsNumberedPair, AreNumberedPairs};
ghost use Rattle.sx_grammar.specs.Known.{IsTextAmong, IsKnown, IsKnownLine, IsKnownPair};
ghost use Rattle.sx_grammar.specs.Known.{LiteralsAreBelow};

use crate::numbered::{NumberedProduction, NumberedSymbol};
use crate::production::Production;
use crate::sort_line::SortLine;
use crate::symbol::Symbol;
use std::alloc::Global;
use sx_term::{Names, NoMemory, Text};

/// The number of the sort with this name.
fn number_sort(sorts: &Names, name: &Text) -> u32
    requires known { IsTextAmong sorts.now name.now }
    requires few { length sorts.now < 2 ^ 32 }
    ensures { result ≡ number_of sorts.now name.now }
{
    match sorts.number(name.bytes()) {
        Some(number) => number as u32,
        None => unreachable!(),
    }
}

/// The number of the literal.
fn number_literal(literals: &Names, text: &Text) -> u32
    requires known { IsTextAmong literals.now text.now }
    requires few { length literals.now < 2 ^ 32 }
    ensures { slice_get literals.now result ≡ Some text.now }
{
    match literals.number(text.bytes()) {
        Some(number) => number as u32,
        None => unreachable!(),
    }
}

/// The symbol with numbers.
fn number_symbol(sorts: &Names, literals: &Names, symbol: &Symbol) -> NumberedSymbol
    requires known { IsKnown sorts.now literals.now symbol.now }
    requires few { length sorts.now < 2 ^ 32 }
    requires few_literals { length literals.now < 2 ^ 32 }
    ensures same { plain.symbol literals.now result ≡ numbered_symbol sorts.now symbol.now }
    ensures below { LiteralsAreBelow (length literals.now) (result ∷ []) }
{
    match symbol {
        Symbol::Lit(text) => NumberedSymbol::Lit(number_literal(literals, text)),
        Symbol::Lex(kind) => NumberedSymbol::Lex(*kind),
        Symbol::Part { sort, least } => NumberedSymbol::Part {
            sort: number_sort(sorts, sort),
            least: *least,
        },
    }
}

/// The symbols with numbers.
fn number_symbols(
    alloc: Global,
    sorts: &Names,
    literals: &Names,
    symbols: &[Symbol],
) -> Result<Vec<NumberedSymbol>, NoMemory>
    requires known { (s : SymbolOf) → Contains symbols.now s → IsKnown sorts.now literals.now s }
    requires few { length sorts.now < 2 ^ 32 }
    requires few_literals { length literals.now < 2 ^ 32 }
    ensures same { IfOk result (λ v. map (plain.symbol literals.now) v.items
        ≡ map (numbered_symbol sorts.now) symbols.now) }
    ensures below { IfOk result (λ v. LiteralsAreBelow (length literals.now) v.items) }
{
    let mut out = Vec::new(alloc);
    for symbol in symbols {
        out.push(number_symbol(sorts, literals, symbol))?;
    }
    Ok(out)
}

/// The production with numbers.
fn number_production(
    alloc: Global,
    sorts: &Names,
    literals: &Names,
    production: &Production,
) -> Result<NumberedProduction, NoMemory>
    requires known { IsKnownLine sorts.now literals.now production.now }
    requires few { length sorts.now < 2 ^ 32 }
    requires few_literals { length literals.now < 2 ^ 32 }
    ensures same { IfOk result (λ q. plain.production literals.now q
        ≡ numbered_line sorts.now (line production.now)) }
    ensures below { IfOk result (λ q. LiteralsAreBelow (length literals.now) q.symbols.items) }
{
    Ok(NumberedProduction {
        sort: number_sort(sorts, &production.sort),
        level: production.level,
        symbols: number_symbols(alloc, sorts, literals, &production.symbols)?,
    })
}

/// The productions with numbers.
pub(crate) fn number_productions(
    alloc: Global,
    sorts: &Names,
    literals: &Names,
    productions: &[Production],
) -> Result<Vec<NumberedProduction>, NoMemory>
    requires known { (p : ProductionOf) → Contains productions.now p →
        IsKnownLine sorts.now literals.now p }
    requires few { length sorts.now < 2 ^ 32 }
    requires few_literals { length literals.now < 2 ^ 32 }
    ensures same { IfOk result (λ v. map (plain.production literals.now) v.items
        ≡ map (numbered_line sorts.now) (map line productions.now)) }
    ensures below { IfOk result (λ v. HaveLiteralsBelow (length literals.now) v.items) }
{
    let mut out = Vec::new(alloc);
    for production in productions {
        out.push(number_production(alloc, sorts, literals, production)?)?;
    }
    Ok(out)
}

/// The brackets by the numbers of their literals.
fn number_pair(literals: &Names, brackets: &Option<(Text, Text)>) -> Option<(u32, u32)>
    requires known { IsKnownPair literals.now brackets.now }
    requires few { length literals.now < 2 ^ 32 }
    ensures { IsNumberedPair literals.now (numbered_pair brackets.now) result }
{
    match brackets {
        Some((opening, closing)) => Some((
            number_literal(literals, opening),
            number_literal(literals, closing),
        )),
        None => None,
    }
}

/// The brackets of the sorts by the numbers of their literals.
pub(crate) fn number_brackets(
    alloc: Global,
    literals: &Names,
    sorts: &[SortLine],
) -> Result<Vec<Option<(u32, u32)>>, NoMemory>
    requires known { (s : SortLineOf) → Contains sorts.now s → IsKnownPair literals.now s.brackets }
    requires few { length literals.now < 2 ^ 32 }
    ensures { IfOk result (λ v. AreNumberedPairs literals.now sorts.now v.items) }
{
    let mut out = Vec::new(alloc);
    for sort in sorts {
        out.push(number_pair(literals, &sort.brackets))?;
    }
    Ok(out)
}
