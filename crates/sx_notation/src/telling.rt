//! Telling why tokens have not one reading.

ghost use Rattle.std.specs.Prelude.{◌≡◌, ◌≤◌, length, map, IfOk};
ghost use Rattle.std.specs.List.{AllByRecursion};
ghost use Rattle.std.specs.Str.{IsUtf8};
ghost use Rattle.sx_term.specs.declared.sort.Sort.{Sort};
ghost use Rattle.sx_grammar.specs.Parts.{labels};
ghost use Rattle.sx_grammar.specs.Reading.{reading_depth};
ghost use Rattle.sx_earley.specs.Tokens.{Stems};
ghost use Rattle.sx_forest.specs.Readings.{plain_reading};
ghost use Rattle.sx_forest.specs.Text.{token_texts, tree_text, IsWithin};
ghost use Rattle.sx_notation.specs.WhyUnread.{place_in, IsUnreadAs, IsReadError};
ghost use Rattle.sx_term.specs.Limits.{most_depth};

use crate::unread::Unread;
use std::alloc::Global;
use sx_forest::{ReadError, Reading, write_tree};
use sx_grammar::{Grammar, Production};
use sx_term::{NoMemory, Text};
use sx_token::Token;

/// Where the token with this number begins, or the number of the text's bytes where there is none.
pub fn place_in(tokens: &[Token], size: usize, number: u32) -> usize
    ensures place { result ≡ place_in tokens.now size number }
    ensures within { AllByRecursion (λ t. t.from ≤ size) tokens.now → result ≤ size }
{
    match tokens.get(number as usize) {
        Some(token) => token.from as usize,
        None => size,
    }
}

/// The labels are UTF-8, which the walk over them shows.
fn labels_are_texts(productions: &[Production])
    ensures { AllByRecursion IsUtf8 (map (λ r. r.label) productions.now) }
{
    for i in 0..productions.len() {
        let production = &productions[i];
        let _ = production.label.bytes();
    }
}

/// The texts of the tokens are UTF-8, which the walk over them shows.
fn tokens_are_texts(tokens: &[Token])
    ensures { AllByRecursion IsUtf8 (token_texts tokens.now) }
{
    for i in 0..tokens.len() {
        let token = &tokens[i];
        let _ = token.text.bytes();
    }
}

/// The tree text of the reading.
fn tree_text(
    alloc: Global,
    grammar: &Grammar,
    reading: &Reading,
    tokens: &[Token],
) -> Result<Text, NoMemory>
    requires depth { reading_depth (plain_reading reading.now) ≤ most_depth }
    requires within { IsWithin (length grammar.now.parts.productions) (length tokens.now)
        (plain_reading reading.now) }
    ensures { IfOk result (λ t. t ≡ tree_text (labels grammar.now.parts) (token_texts tokens.now)
        (plain_reading reading.now)) }
{
    let mut bytes = Vec::new(alloc);
    write_tree(alloc, grammar, reading, tokens, &mut bytes)?;
    labels_are_texts(&grammar.parts().productions);
    tokens_are_texts(tokens);
    Text::of_utf8(alloc, &bytes)
}

/// Why tokens of a text of so many bytes have not one reading, where `read_one` answers this error
/// for them.
pub fn why_unread(
    alloc: Global,
    grammar: &Grammar,
    tokens: &[Token],
    size: usize,
    error: ReadError,
) -> Result<Unread, NoMemory>
    requires { (stems : Stems) × (sort : Sort) ×
        IsReadError grammar.now.parts stems sort tokens.now error }
    ensures { IfOk result (λ u. (stems : Stems) (sort : Sort) →
        IsReadError grammar.now.parts stems sort tokens.now error →
        IsUnreadAs grammar.now.parts stems sort tokens.now size u) }
{
    match error {
        ReadError::Memory => Err(NoMemory::Memory),
        ReadError::TooHard => Ok(Unread::TooHard),
        ReadError::NoReading(end) => Ok(Unread::NoReading(place_in(tokens, size, end))),
        ReadError::TooDeep(depth) => Ok(Unread::TooDeep(depth)),
        ReadError::Ambiguous(one, other) => {
            let one = tree_text(alloc, grammar, &one, tokens)?;
            let other = tree_text(alloc, grammar, &other, tokens)?;
            Ok(Unread::Ambiguous(one, other))
        }
    }
}
