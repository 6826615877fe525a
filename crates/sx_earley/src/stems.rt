//! What the tokens of texts show.

ghost use Rattle.std.specs.Prelude.{◌≡◌, ℕ, List, IfOk};
ghost use Rattle.sx_term.specs.declared.sort.Sort.{Sort};
ghost use Rattle.sx_grammar.specs.Stems.{without_digits};
ghost use Rattle.sx_earley.specs.Tokens.{stem_sort};
ghost use Rattle.sx_earley.specs.Shown.{literal_texts};
ghost use Rattle.sx_earley.specs.Showing.{IsStems, AllShow};
ghost use Rattle.sx_earley.specs.Unknown.{IsFirstUnknown};

use crate::metas::Metas;
use crate::shown::Shown;
use crate::stem_table::{StemTable, stem_table};
use std::alloc::Global;
use std::marker::Model;
use sx_grammar::Grammar;
use sx_term::{NoMemory, Sort};
use sx_token::Token;

/// Stems of metavariables with their sorts, in a table that shows the tokens of any number of
/// texts.
#[derive(Drop)]
pub struct Stems<'a> {
    table: StemTable<'a>,
}

impl<'a> Model for Stems<'a> {
    ghost use Rattle.std.specs.Prelude.{ℕ, List};
    ghost use Rattle.sx_term.specs.declared.sort.Sort.{Sort};
    ghost use Rattle.sx_earley.specs.Showing.{IsStems};

    ghost Value = { List (List ℕ × Sort) };

    ghost view = { λ s. s.table.metas.now.stems.items };

    ghost invariant = { λ s. IsStems s.table.metas.now.stems.items s.table };
}

/// The place of the first unknown token.
fn first_unknown_of(table: &StemTable, tokens: &[Token]) -> Option<usize>
    ensures { (stems : List (List ℕ × Sort)) → IsStems stems table.now →
        IsFirstUnknown stems tokens.now result }
{
    for i in 0..tokens.len() {
        let token = &tokens[i];
        if !table.knows(token) {
            return Some(i);
        }
    }
    None
}

/// What each of the tokens shows to the grammar.
fn show_each(
    alloc: Global,
    grammar: &Grammar,
    table: &StemTable,
    tokens: &[Token],
) -> Result<Vec<Shown>, NoMemory>
    ensures { IfOk result (λ v. (stems : List (List ℕ × Sort)) → IsStems stems table.now →
        AllShow (literal_texts grammar.now) stems tokens.now v.items) }
{
    let mut shown = Vec::with_capacity(alloc, tokens.len())?;
    for i in 0..tokens.len() {
        let token = &tokens[i];
        shown.push(table.show(grammar, token))?;
    }
    Ok(shown)
}

impl<'a> Stems<'a> {
    /// The table of the stems.
    pub fn new(alloc: Global, metas: &'a Metas) -> Result<Stems<'a>, NoMemory>
        ensures { IfOk result (λ s. s ≡ metas.now.stems.items) }
    {
        Ok(Stems {
            table: stem_table(alloc, metas)?,
        })
    }

    /// The sort of the word's stem, or None where the stem is none of these.
    pub fn sort_of(&self, word: &[u8]) -> Option<Sort>
        ensures { result ≡ stem_sort self.now (without_digits word.now) }
    {
        let table = &self.table;
        table.sort_of_word(word)
    }

    /// The place of the first metavariable whose stem is none of the stems, or None where each has
    /// one.
    pub fn first_unknown(&self, tokens: &[Token]) -> Option<usize>
        ensures { IsFirstUnknown self.now tokens.now result }
    {
        let table = &self.table;
        first_unknown_of(table, tokens)
    }

    /// What the tokens show to the grammar.
    pub fn show_all(
        &self,
        alloc: Global,
        grammar: &Grammar,
        tokens: &[Token],
    ) -> Result<Vec<Shown>, NoMemory>
        ensures { IfOk result
            (λ v. AllShow (literal_texts grammar.now) self.now tokens.now v.items) }
    {
        let table = &self.table;
        show_each(alloc, grammar, table, tokens)
    }
}

/// What the tokens show to the grammar.
pub fn show_all(
    alloc: Global,
    grammar: &Grammar,
    metas: &Metas,
    tokens: &[Token],
) -> Result<Vec<Shown>, NoMemory>
    ensures { IfOk result (λ v. AllShow (literal_texts grammar.now) metas.now.stems.items tokens.now
        v.items) }
{
    let stems = Stems::new(alloc, metas)?;
    stems.show_all(alloc, grammar, tokens)
}

/// The place of the first metavariable whose stem is none of the stems, or None where each has one.
pub fn first_unknown(
    alloc: Global,
    metas: &Metas,
    tokens: &[Token],
) -> Result<Option<usize>, NoMemory>
    ensures { IfOk result (IsFirstUnknown metas.now.stems.items tokens.now) }
{
    let stems = Stems::new(alloc, metas)?;
    Ok(stems.first_unknown(tokens))
}
