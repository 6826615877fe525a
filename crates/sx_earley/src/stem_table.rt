//! The sorts of stems.

ghost use Rattle.std.specs.Prelude.{◌≡◌, ℕ, List, IfOk, IsTrue, false};
ghost use Rattle.sx_term.specs.declared.sort.Sort.{Sort};
ghost use Rattle.sx_grammar.specs.Stems.{without_digits};
ghost use Rattle.sx_earley.specs.Tokens.{meta_stem, stem_sort};
ghost use Rattle.sx_earley.specs.Shown.{literal_texts};
ghost use Rattle.sx_earley.specs.Showing.{IsStems, TokenShows, shown_stem};
ghost use Rattle.sx_earley.specs.Unknown.{HasKnownStem, IsUnknownStem};

use crate::metas::Metas;
use crate::shown::{Shown, literal_shown};
use std::alloc::{AllocError, Global};
use std::collections::HashMap;
use sx_grammar::{Grammar, without_digits};
use sx_term::{LexKind, Mark, Sort};
use sx_token::Token;

/// The sort of each of the stems, found by the stem's hash.
#[derive(Drop)]
pub(crate) struct StemTable<'a> {
    pub(crate) metas: &'a Metas,
    pub(crate) sorts: HashMap<&'a [u8], Sort>,
}

/// The stems by their bytes, from the last to the first, so that of equal stems the first counts.
pub(crate) fn stem_table<'a>(alloc: Global, metas: &'a Metas) -> Result<StemTable<'a>, AllocError>
    ensures stems { IfOk result (λ s. IsStems metas.entry.now.stems.items s) }
    ensures metas { IfOk result (λ s. s.metas.now ≡ metas.entry.now) }
{
    let mut sorts = HashMap::new(alloc);
    let mut left = metas.stems.len();
    while left > 0 {
        left -= 1;
        let stem = &metas.stems[left];
        sorts.insert(stem.0.bytes(), stem.1)?;
    }
    Ok(StemTable { metas, sorts })
}

/// The stem of the metavariable.
fn stem_of(text: &[u8]) -> &[u8]
    ensures { result.now ≡ meta_stem text.now }
{
    match text.split_first() {
        None => text,
        Some((first, name)) => {
            if *first == b'~' {
                return without_digits(name);
            }
            without_digits(text)
        }
    }
}

/// What a metavariable shows whose stem has this sort.
fn shown_stem(sort: Option<Sort>) -> Shown
    ensures { result ≡ shown_stem sort }
{
    match sort {
        None => Shown::Kind(LexKind::Id),
        Some(Sort::Lex(kind)) => Shown::Kind(kind),
        Some(Sort::Plain(number)) => Shown::Sort(number),
        Some(Sort::Typed(number)) => Shown::Sort(number),
    }
}

impl<'a> StemTable<'a> {
    /// The sort of the stem.
    fn sort_of(&self, stem: &[u8]) -> Option<Sort>
        ensures { (stems : List (List ℕ × Sort)) → IsStems stems self.now →
            result ≡ stem_sort stems stem.now }
    {
        self.sorts.get(stem).copied()
    }

    /// The sort of the word's stem.
    pub(crate) fn sort_of_word(&self, word: &[u8]) -> Option<Sort>
        ensures { (stems : List (List ℕ × Sort)) → IsStems stems self.now →
            result ≡ stem_sort stems (without_digits word.now) }
    {
        self.sort_of(without_digits(word))
    }

    /// Whether the token is no metavariable, or its stem has a sort.
    pub(crate) fn knows(&self, token: &Token) -> bool
        ensures yes { (stems : List (List ℕ × Sort)) → IsStems stems self.now → IsTrue result →
            HasKnownStem stems token.now }
        ensures not { (stems : List (List ℕ × Sort)) → IsStems stems self.now → result ≡ false →
            IsUnknownStem stems token.now }
    {
        match token.mark {
            Mark::Meta => self.sort_of(stem_of(token.text.bytes())).is_some(),
            _ => true,
        }
    }

    /// What the token shows to the grammar.
    pub(crate) fn show(&self, grammar: &Grammar, token: &Token) -> Shown
        ensures { (stems : List (List ℕ × Sort)) → IsStems stems self.now →
            TokenShows (literal_texts grammar.now) stems token.now.mark token.now.text result }
    {
        match token.mark {
            Mark::Lit(number) => literal_shown(grammar, number, token.text.bytes()),
            Mark::Lex(kind) => Shown::Lex(kind),
            Mark::Meta => shown_stem(self.sort_of(stem_of(token.text.bytes()))),
        }
    }
}
