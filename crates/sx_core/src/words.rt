//! The words of a line of a core file.

ghost use Rattle.std.specs.Prelude.{◌≡◌, ℕ, List, ◌++◌, MatchOption, MatchResult};
ghost use Rattle.sx_core.specs.Words as spec;
ghost use Rattle.sx_core.specs.Words.{IsWordEnd, IsWordRead, NoWord, IsNameRead, NameRefused};
ghost use Rattle.sx_core.specs.Words.{NoName, AreNamesRead, NamesRefused};
ghost use Rattle.sx_core.specs.Stated.{IsCoreName};

use crate::terms_row::RowError;
use std::alloc::Global;
use sx_lines::{after, is_name};
use sx_term::{Text, TextError};

/// What follows the front in a text that begins with it.
pub(crate) fn after_front<'a>(text: &'a [u8], front: &[u8]) -> Option<&'a [u8]>
    ensures { MatchOption result ((rest : List ℕ) → text.entry.now ≡ front.now ++ rest → ⊥)
        (λ rest. text.entry.now ≡ front.now ++ rest.now) }
{
    after(text, front)
}

/// How long the word at the front is.
pub(crate) fn word_len(text: &[u8]) -> usize
    ensures { IsWordEnd text.now result }
{
    for (at, b) in text.iter().enumerate() {
        if *b == b' ' {
            return at;
        }
    }
    text.len()
}

/// The word after one blank, and what is left.
pub(crate) fn next_word<'a>(text: &'a [u8]) -> Option<(&'a [u8], &'a [u8])>
    ensures { MatchOption result (NoWord text.entry.now)
        (λ x. IsWordRead text.entry.now x.0.now x.1.now) }
{
    match text {
        [] => None,
        [first, others @ ..] => {
            if *first != b' ' {
                return None;
            }
            Some(others.split_at(word_len(others)))
        }
    }
}

fn text_error(e: TextError) -> RowError
    ensures { result ≡ spec.core_text_error e }
{
    match e {
        TextError::Memory => RowError::Memory,
        TextError::NotUtf8(_) => RowError::Shape,
    }
}

/// The name that a word is.
pub(crate) fn name_of(alloc: Global, word: &[u8]) -> Result<Text, RowError>
    ensures { MatchResult result (λ name. (name ≡ word.now) × IsCoreName word.now)
        (λ e. NoName word.now e) }
{
    if !is_name(true, word) {
        return Err(RowError::Shape);
    }
    match Text::make(alloc, word) {
        Ok(name) => Ok(name),
        Err(e) => Err(text_error(e)),
    }
}

/// The name after one blank, and what is left.
pub(crate) fn read_name<'a>(alloc: Global, text: &'a [u8]) -> Result<(Text, &'a [u8]), RowError>
    ensures { MatchResult result (λ x. IsNameRead text.entry.now x.0 x.1.now)
        (λ e. NameRefused text.entry.now e) }
{
    match next_word(text) {
        Some((word, rest)) => match name_of(alloc, word) {
            Ok(name) => Ok((name, rest)),
            Err(e) => Err(e),
        },
        None => Err(RowError::Shape),
    }
}

/// The names that the rest of a line consists of, each after one blank.
pub(crate) fn read_names(alloc: Global, text: &[u8]) -> Result<Vec<Text>, RowError>
    ensures { MatchResult result (λ names. AreNamesRead text.now names.items)
        (λ e. NamesRefused text.now e) }
{
    let mut names = Vec::new(alloc);
    let mut left = text;
    while !left.is_empty() {
        match read_name(alloc, left) {
            Ok((name, rest)) => {
                names.push(name)?;
                left = rest;
            }
            Err(e) => return Err(e),
        }
    }
    Ok(names)
}
