//! Making a grammar of another one, one more sort and more productions.

ghost use Rattle.std.specs.Prelude.{◌≡◌, IfOk, map};
ghost use Rattle.sx_grammar.specs.Parts.{line, parts};
ghost use Rattle.sx_grammar.specs.Extended.{extended, widened, IsExtended};
ghost use Rattle.sx_grammar.specs.Tables.{IsWithinLimits, IsGrammarMade};

use crate::grammar::Grammar;
use crate::grammar_error::GrammarError;
use crate::grammar_parts::GrammarParts;
use crate::growing::tables_behind;
use crate::moving::move_behind;
use crate::production::Production;
use crate::sort_line::SortLine;
use std::alloc::Global;
use sx_term::NoMemory;

/// The sorts and productions of the parts, and more productions behind these.
fn with_more(
    alloc: Global,
    from: &GrammarParts,
    more: Vec<Production>,
) -> Result<GrammarParts, NoMemory>
    ensures { IfOk result (λ p. parts p ≡ extended (parts from.now) (map line more.items)) }
{
    let mut all = match from.copy(alloc) {
        Ok(all) => all,
        Err(e) => {
            drop(more);
            return Err(e);
        }
    };
    match move_behind(&mut all.productions, more) {
        Ok(()) => Ok(all),
        Err(e) => {
            drop(all);
            Err(NoMemory::from(e))
        }
    }
}

/// The sorts and productions of the parts, and one more sort and more productions behind these.
fn with_all(
    alloc: Global,
    from: &GrammarParts,
    sort: SortLine,
    more: Vec<Production>,
) -> Result<GrammarParts, NoMemory>
    ensures { IfOk result (λ p. parts p ≡ widened (parts from.now) sort (map line more.items)) }
{
    let mut all = match with_more(alloc, from, more) {
        Ok(all) => all,
        Err(e) => {
            drop(sort);
            return Err(e);
        }
    };
    match all.sorts.push(sort) {
        Ok(()) => Ok(all),
        Err(e) => {
            drop(all);
            Err(NoMemory::from(e))
        }
    }
}

impl Grammar {
    /// The grammar with these productions behind those of the base, where the base productions of
    /// the base are base and these are not; or the first refusal that holds of all the sorts and
    /// productions.
    pub fn extend(
        alloc: Global,
        base: &Grammar,
        more: Vec<Production>,
    ) -> Result<Grammar, GrammarError>
        requires { IsWithinLimits (extended base.now.parts (map line more.items)) }
        ensures { IsExtended base.now (map line more.items) result }
    {
        let parts = with_more(alloc, &base.parts, more)?;
        match tables_behind(alloc, base, &parts) {
            Ok(made) => Ok(Grammar::of(parts, base.base, made)),
            Err(e) => {
                drop(parts);
                Err(e)
            }
        }
    }

    /// The grammar of the base's sorts with this one behind them and of its productions with these
    /// behind them, all of which are base; or the first refusal that holds of these sorts and
    /// productions.
    pub fn with_sort(
        alloc: Global,
        base: &Grammar,
        sort: SortLine,
        more: Vec<Production>,
    ) -> Result<Grammar, GrammarError>
        requires { IsWithinLimits (widened base.now.parts sort (map line more.items)) }
        ensures { IsGrammarMade (widened base.now.parts sort (map line more.items)) result }
    {
        let parts = with_all(alloc, &base.parts, sort, more)?;
        let count = parts.productions.len();
        match tables_behind(alloc, base, &parts) {
            Ok(made) => Ok(Grammar::of(parts, count, made)),
            Err(e) => {
                drop(parts);
                Err(e)
            }
        }
    }
}
