//! Making a grammar.

ghost use Rattle.std.specs.Prelude.{◌≡◌, ◌≤◌, ℕ, length, OnOk, IfOk, IfErr};
ghost use Rattle.sx_grammar.specs.Parts.{parts, literals, names, numbered, texts};
ghost use Rattle.sx_grammar.specs.Order.{AreRanks};
ghost use Rattle.sx_grammar.specs.Tables.{literals_of, AreNumbered, AreNumberedPairs};
ghost use Rattle.sx_grammar.specs.Tables.{HaveLiteralsBelow, IsWithinLimits, IsTabled};
ghost use Rattle.sx_grammar.specs.Tables.{IsGrammarMade};
ghost use Rattle.sx_grammar.specs.Made.{HasLiterals, HasSorts, HasLabels, IsGrammar};
ghost use Rattle.sx_grammar.specs.Made.{IsGrammarRefused};

use crate::checks::{good_labels, good_literals, good_sorts, known_sorts};
use crate::cyclic::not_cyclic;
use crate::distinct::distinct;
use crate::grammar::Grammar;
use crate::grammar_error::GrammarError;
use crate::grammar_parts::GrammarParts;
use crate::levels::has_brackets;
use crate::mixing::keeps_sorts;
use crate::numbered::NumberedProduction;
use crate::numbered_parts::NumberedParts;
use crate::numbering::{number_brackets, number_productions};
use crate::tables::Tables;
use std::alloc::Global;
use sx_term::{Names, Text};

/// Whether the sorts that are named are known, and the labels distinct.
fn good_names(alloc: Global, from: &GrammarParts, sorts: &Names) -> Result<(), GrammarError>
    requires sorts { HasSorts (parts from.now) }
    requires names { sorts.now ≡ names (parts from.now) }
    ensures good { OnOk result (HasLabels (parts from.now)) }
    ensures refused { IfErr result (IsGrammarRefused (parts from.now)) }
{
    known_sorts(alloc, from, sorts)?;
    good_labels(alloc, from)
}

/// The names of the sorts; or what is wrong with sorts or labels.
fn sort_names_of(alloc: Global, from: &GrammarParts) -> Result<Names, GrammarError>
    requires { HasLiterals (parts from.now) }
    ensures good { OnOk result (HasLabels (parts from.now)) }
    ensures names { IfOk result (λ n. n ≡ names (parts from.now)) }
    ensures refused { IfErr result (IsGrammarRefused (parts from.now)) }
{
    let sorts = good_sorts(alloc, from)?;
    match good_names(alloc, from, &sorts) {
        Ok(()) => Ok(sorts),
        Err(e) => {
            drop(sorts);
            Err(e)
        }
    }
}

/// The brackets and literals in order, and the names of the sorts; or what is wrong with literals,
/// sorts or labels.
fn names_of(alloc: Global, from: &GrammarParts) -> Result<(Vec<&Text>, Names), GrammarError>
    ensures good { OnOk result (HasLabels (parts from.now)) }
    ensures texts { IfOk result (λ r. texts r.0.items ≡ literals (parts from.now)) }
    ensures names { IfOk result (λ r. r.1 ≡ names (parts from.now)) }
    ensures refused { IfErr result (IsGrammarRefused (parts from.now)) }
{
    let texts = good_literals(alloc, from)?;
    match sort_names_of(alloc, from) {
        Ok(sorts) => Ok((texts, sorts)),
        Err(e) => {
            drop(texts);
            Err(e)
        }
    }
}

/// The ranks of the sorts; or a plain production with a typed part, a sort without brackets or a
/// cyclic sort.
fn ranks_of(
    alloc: Global,
    from: &GrammarParts,
    productions: &[NumberedProduction],
) -> Result<Vec<u32>, GrammarError>
    requires labels { HasLabels (parts from.now) }
    requires numbered { AreNumbered (parts from.now) productions.now }
    requires limits { IsWithinLimits (parts from.now) }
    ensures good { OnOk result (IsGrammar (parts from.now)) }
    ensures ranking { IfOk result (λ v. AreRanks (numbered (parts from.now)) v.items) }
    ensures refused { IfErr result (IsGrammarRefused (parts from.now)) }
{
    keeps_sorts(alloc, from, productions, 0)?;
    has_brackets(alloc, from, productions)?;
    not_cyclic(alloc, from, productions)
}

/// The productions with numbers, and the ranks of the sorts; or a plain production with a typed
/// part, a sort without brackets or a cyclic sort.
fn productions_of(
    alloc: Global,
    from: &GrammarParts,
    sorts: &Names,
    literals: &Names,
) -> Result<(Vec<NumberedProduction>, Vec<u32>), GrammarError>
    requires labels { HasLabels (parts from.now) }
    requires sorts { sorts.now ≡ names (parts from.now) }
    requires literals { literals.now ≡ literals_of (parts from.now) }
    requires limits { IsWithinLimits (parts from.now) }
    ensures good { OnOk result (IsGrammar (parts from.now)) }
    ensures same { IfOk result (λ r. AreNumbered (parts from.now) r.0.items) }
    ensures below { IfOk result (λ r. HaveLiteralsBelow (length literals.now) r.0.items) }
    ensures ranking { IfOk result (λ r. AreRanks (numbered (parts from.now)) r.1.items) }
    ensures refused { IfErr result (IsGrammarRefused (parts from.now)) }
{
    let productions = number_productions(alloc, sorts, literals, &from.productions)?;
    match ranks_of(alloc, from, &productions) {
        Ok(ranks) => Ok((productions, ranks)),
        Err(e) => {
            drop(productions);
            Err(e)
        }
    }
}

/// The productions and brackets with numbers, and the ranks of the sorts; or why the parts are no
/// grammar.
fn numbered_parts(
    alloc: Global,
    from: &GrammarParts,
    sorts: &Names,
    literals: &Names,
) -> Result<NumberedParts, GrammarError>
    requires labels { HasLabels (parts from.now) }
    requires sorts { sorts.now ≡ names (parts from.now) }
    requires literals { literals.now ≡ literals_of (parts from.now) }
    requires limits { IsWithinLimits (parts from.now) }
    ensures good { OnOk result (IsGrammar (parts from.now)) }
    ensures same { IfOk result (λ n. AreNumbered (parts from.now) n.productions.items) }
    ensures below { IfOk result (λ n. HaveLiteralsBelow (length literals.now) n.productions.items) }
    ensures ranking { IfOk result (λ n. AreRanks (numbered (parts from.now)) n.ranks.items) }
    ensures pairs { IfOk result (λ n. AreNumberedPairs literals.now
        (parts from.now).sorts n.brackets.items) }
    ensures refused { IfErr result (IsGrammarRefused (parts from.now)) }
{
    let (productions, ranks) = productions_of(alloc, from, sorts, literals)?;
    match number_brackets(alloc, literals, &from.sorts) {
        Ok(brackets) => Ok(NumberedParts {
            productions,
            ranks,
            brackets,
        }),
        Err(e) => {
            drop(ranks);
            drop(productions);
            Err(GrammarError::from(e))
        }
    }
}

/// The tables of the parts with these names, or why the parts are no grammar.
fn tables_with(
    alloc: Global,
    from: &GrammarParts,
    sort_names: Names,
    literals: Vec<Text>,
    literal_names: Names,
) -> Result<Tables, GrammarError>
    requires labels { HasLabels (parts from.now) }
    requires sorts { sort_names ≡ names (parts from.now) }
    requires texts { literals.items ≡ literals_of (parts from.now) }
    requires literals { literal_names ≡ literals_of (parts from.now) }
    requires limits { IsWithinLimits (parts from.now) }
    ensures tables { IfOk result (λ t. (base : ℕ) → base ≤ length (parts from.now).productions
        → IsTabled (parts from.now) base t.literals.items t.productions.items t.brackets.items
        t.sort_names t.literal_names t.ranks.items) }
    ensures refused { IfErr result (IsGrammarRefused (parts from.now)) }
{
    match numbered_parts(alloc, from, &sort_names, &literal_names) {
        Ok(
            NumberedParts {
                productions,
                ranks,
                brackets,
            },
        ) => Ok(Tables {
            literals,
            productions,
            brackets,
            sort_names,
            literal_names,
            ranks,
        }),
        Err(e) => {
            drop(literal_names);
            drop(literals);
            drop(sort_names);
            Err(e)
        }
    }
}

/// The tables of the parts, or why these are no grammar.
pub(crate) fn tables(alloc: Global, from: &GrammarParts) -> Result<Tables, GrammarError>
    requires { IsWithinLimits (parts from.now) }
    ensures tables { IfOk result (λ t. (base : ℕ) → base ≤ length (parts from.now).productions
        → IsTabled (parts from.now) base t.literals.items t.productions.items t.brackets.items
        t.sort_names t.literal_names t.ranks.items) }
    ensures refused { IfErr result (IsGrammarRefused (parts from.now)) }
{
    let (texts, sort_names) = names_of(alloc, from)?;
    let found = distinct(alloc, &texts);
    drop(texts);
    match found {
        Ok((literals, literal_names)) => {
            tables_with(alloc, from, sort_names, literals, literal_names)
        }
        Err(e) => {
            drop(sort_names);
            Err(GrammarError::from(e))
        }
    }
}

impl Grammar {
    /// The grammar of the parts, all of whose productions are base, or the first refusal that holds
    /// of the parts.
    pub fn make(alloc: Global, from: GrammarParts) -> Result<Grammar, GrammarError>
        requires { IsWithinLimits (parts from) }
        ensures { IsGrammarMade (parts from) result }
    {
        let base = from.productions.len();
        match tables(alloc, &from) {
            Ok(made) => Ok(Grammar::of(from, base, made)),
            Err(e) => Err(e),
        }
    }
}
