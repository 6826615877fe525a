//! Plain productions with typed parts.

ghost use Rattle.std.specs.Prelude.{◌≡◌, take, OnOk, IfErr};
ghost use Rattle.std.specs.List.{list_any};
ghost use Rattle.sx_grammar.specs.Parts.{parts};
ghost use Rattle.sx_grammar.specs.Tables.{AreNumbered};
ghost use Rattle.sx_grammar.specs.Levels.{is_typed_part, mixes};
ghost use Rattle.sx_grammar.specs.Made.{HasNone, MixesSorts, HasLabels, KeepsSorts};
ghost use Rattle.sx_grammar.specs.Made.{IsGrammarRefused};

use crate::grammar_error::GrammarError;
use crate::grammar_parts::GrammarParts;
use crate::numbered::{NumberedProduction, NumberedSymbol};
use crate::shaping::is_typed;
use crate::sort_line::SortLine;
use std::alloc::Global;

/// Whether the symbol is a typed part.
fn is_typed_part(sorts: &[SortLine], symbol: &NumberedSymbol) -> bool
    ensures { result ≡ is_typed_part sorts.now symbol.now }
{
    match symbol {
        NumberedSymbol::Part { sort, least: _ } => is_typed(sorts, *sort),
        NumberedSymbol::Lit(_) => false,
        NumberedSymbol::Lex(_) => false,
    }
}

/// Whether one of the symbols is a typed part.
fn has_typed_part(sorts: &[SortLine], symbols: &[NumberedSymbol]) -> bool
    ensures { result ≡ list_any (is_typed_part sorts.now) symbols.now }
{
    for symbol in symbols {
        if is_typed_part(sorts, symbol) {
            return true;
        }
    }
    false
}

/// Whether the production is of a plain sort and has a typed part.
fn mixes(sorts: &[SortLine], production: &NumberedProduction) -> bool
    ensures { result ≡ mixes sorts.now production.now }
{
    !is_typed(sorts, production.sort) && has_typed_part(sorts, &production.symbols)
}

/// Whether no plain production has a typed part, where so many productions, the first ones, are
/// none such; else PlainHasTyped.
pub(crate) fn keeps_sorts(
    alloc: Global,
    from: &GrammarParts,
    productions: &[NumberedProduction],
    first: usize,
) -> Result<(), GrammarError>
    requires labels { HasLabels (parts from.now) }
    requires before { HasNone (MixesSorts (parts from.now))
        (take first (parts from.now).productions) }
    requires numbered { AreNumbered (parts from.now) productions.now }
    ensures good { OnOk result (KeepsSorts (parts from.now)) }
    ensures refused { IfErr result (IsGrammarRefused (parts from.now)) }
{
    for i in first..from.productions.len() {
        let production = &productions[i];
        let named = &from.productions[i];
        if mixes(&from.sorts, production) {
            return Err(GrammarError::PlainHasTyped(named.label.copy(alloc)?));
        }
    }
    Ok(())
}
