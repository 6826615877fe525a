//! What is numbered of a grammar with more sorts and productions, made of what is numbered of that
//! grammar.

ghost use Rattle.std.specs.Prelude.{◌≡◌, ◌++◌, map, length, OnOk, IfOk, IfErr};
ghost use Rattle.sx_grammar.specs.Parts.{line, parts, names, numbered};
ghost use Rattle.sx_grammar.specs.Numbered.{bare};
ghost use Rattle.sx_grammar.specs.Order.{AreRanks};
ghost use Rattle.sx_grammar.specs.Extended.{GrammarGrows};
ghost use Rattle.sx_grammar.specs.Tables.{literals_of, AreNumbered, AreNumberedPairs};
ghost use Rattle.sx_grammar.specs.Tables.{HaveLiteralsBelow, IsWithinLimits};
ghost use Rattle.sx_grammar.specs.Made.{HasLabels, IsGrammar, IsGrammarRefused};

use crate::cyclic::not_cyclic;
use crate::grammar::Grammar;
use crate::grammar_error::GrammarError;
use crate::grammar_parts::GrammarParts;
use crate::levels::has_brackets;
use crate::mixing::keeps_sorts;
use crate::more_sorts::{brackets_with, has_more, ranks_with};
use crate::moving::move_behind;
use crate::numbered::NumberedProduction;
use crate::numbered_parts::NumberedParts;
use crate::numbering::number_productions;
use crate::production::Production;
use crate::tokens::have_tokens;
use std::alloc::Global;
use sx_term::{Names, NoMemory};

/// Equal productions.
fn copy_numbered(
    alloc: Global,
    productions: &[NumberedProduction],
) -> Result<Vec<NumberedProduction>, NoMemory>
    ensures { IfOk result (λ v. map bare v.items ≡ map bare productions.now) }
{
    let mut copies = Vec::with_capacity(alloc, productions.len())?;
    for i in 0..productions.len() {
        copies.push(productions[i].copy(alloc)?)?;
    }
    Ok(copies)
}

/// Productions equal to the first, and the others behind these.
fn joined(
    alloc: Global,
    before: &[NumberedProduction],
    more: Vec<NumberedProduction>,
) -> Result<Vec<NumberedProduction>, NoMemory>
    ensures { IfOk result (λ v. map bare v.items ≡ map bare (before.now ++ more.items)) }
{
    let mut all = match copy_numbered(alloc, before) {
        Ok(all) => all,
        Err(e) => {
            drop(more);
            return Err(e);
        }
    };
    match move_behind(&mut all, more) {
        Ok(()) => Ok(all),
        Err(e) => {
            drop(all);
            Err(NoMemory::from(e))
        }
    }
}

/// The ranks of the sorts of the parts, which are those of the grammar with more behind them: those
/// of the grammar, where each of these productions has a literal or a lexical kind, so that from no
/// sort it leads to another. Or a plain production with a typed part, a sort without brackets or a
/// cyclic sort.
fn ranks_behind(
    alloc: Global,
    base: &Grammar,
    from: &GrammarParts,
    productions: &[NumberedProduction],
    more: &[Production],
) -> Result<Vec<u32>, GrammarError>
    requires behind { GrammarGrows base.now.parts (map line more.now) (parts from.now) }
    requires labels { HasLabels (parts from.now) }
    requires numbered { AreNumbered (parts from.now) productions.now }
    requires limits { IsWithinLimits (parts from.now) }
    ensures good { OnOk result (IsGrammar (parts from.now)) }
    ensures ranking { IfOk result (λ v. AreRanks (numbered (parts from.now)) v.items) }
    ensures refused { IfErr result (IsGrammarRefused (parts from.now)) }
{
    keeps_sorts(alloc, from, productions, base.parts.productions.len())?;
    has_brackets(alloc, from, productions)?;
    if have_tokens(more) {
        return Ok(ranks_with(alloc, &base.ranks, has_more(base, from))?);
    }
    not_cyclic(alloc, from, productions)
}

/// The productions of the parts with numbers, and the ranks of the sorts; or a plain production
/// with a typed part, a sort without brackets or a cyclic sort.
fn ranked_behind(
    alloc: Global,
    base: &Grammar,
    from: &GrammarParts,
    sorts: &Names,
    literals: &Names,
    more: &[Production],
) -> Result<(Vec<NumberedProduction>, Vec<u32>), GrammarError>
    requires behind { GrammarGrows base.now.parts (map line more.now) (parts from.now) }
    requires labels { HasLabels (parts from.now) }
    requires sorts { sorts.now ≡ names (parts from.now) }
    requires literals { literals.now ≡ literals_of (parts from.now) }
    requires limits { IsWithinLimits (parts from.now) }
    ensures good { OnOk result (IsGrammar (parts from.now)) }
    ensures same { IfOk result (λ r. AreNumbered (parts from.now) r.0.items) }
    ensures below { IfOk result (λ r. HaveLiteralsBelow (length literals.now) r.0.items) }
    ensures ranking { IfOk result (λ r. AreRanks (numbered (parts from.now)) r.1.items) }
    ensures refused { IfErr result (IsGrammarRefused (parts from.now)) }
{
    let own = number_productions(alloc, sorts, literals, more)?;
    let productions = joined(alloc, &base.productions, own)?;
    match ranks_behind(alloc, base, from, &productions, more) {
        Ok(ranks) => Ok((productions, ranks)),
        Err(e) => {
            drop(productions);
            Err(e)
        }
    }
}

/// What is numbered of the parts, which are those of the grammar with more behind them, and whose
/// literals and names are good; or why these are no grammar. The brackets of the grammar's sorts
/// keep their numbers.
pub(crate) fn numbered_behind(
    alloc: Global,
    base: &Grammar,
    from: &GrammarParts,
    sorts: &Names,
    literals: &Names,
    more: &[Production],
) -> Result<NumberedParts, GrammarError>
    requires behind { GrammarGrows base.now.parts (map line more.now) (parts from.now) }
    requires labels { HasLabels (parts from.now) }
    requires sorts { sorts.now ≡ names (parts from.now) }
    requires literals { literals.now ≡ literals_of (parts from.now) }
    requires limits { IsWithinLimits (parts from.now) }
    ensures good { OnOk result (IsGrammar (parts from.now)) }
    ensures same { IfOk result (λ n. AreNumbered (parts from.now) n.productions.items) }
    ensures below { IfOk result (λ n. HaveLiteralsBelow (length literals.now) n.productions.items) }
    ensures ranking { IfOk result (λ n. AreRanks (numbered (parts from.now)) n.ranks.items) }
    ensures pairs { IfOk result (λ n. AreNumberedPairs literals.now
        (parts from.now).sorts n.brackets.items) }
    ensures refused { IfErr result (IsGrammarRefused (parts from.now)) }
{
    let (productions, ranks) = ranked_behind(alloc, base, from, sorts, literals, more)?;
    match brackets_with(alloc, &base.brackets, has_more(base, from)) {
        Ok(brackets) => Ok(NumberedParts {
            productions,
            ranks,
            brackets,
        }),
        Err(e) => {
            drop(ranks);
            drop(productions);
            Err(GrammarError::from(e))
        }
    }
}
