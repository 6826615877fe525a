//! Options, one by one.

ghost use Rattle.std.specs.Prelude.{◌≡◌, option_map, IfSome, MatchOption};
ghost use Rattle.std.specs.Str.{IsUtf8};
ghost use Rattle.sx_words.specs.Reading as spec;
ghost use Rattle.sx_words.specs.View.{given_view, pair_view};
ghost use Rattle.sx_words.specs.Texts.{AreUtf8, IsGivenUtf8, IsFirstColon};
ghost use Rattle.sx_words.specs.Commands.{NoColon};

use sx_lines::{after, count_of};
use sx_term::MOST_BUDGET;

/// An option, as a word spells it.
#[derive(Clone, Copy)]
pub(crate) enum Given<'a> {
    Core,
    /// From 1 to 1,000,000.
    Tries(u64),
    /// From 1 to 1,000,000.
    Nodes(u64),
    /// A kind without a colon, and a setting.
    Audit(&'a [u8], &'a [u8]),
}

/// The place of the first colon.
fn first_colon(text: &[u8]) -> Option<usize>
    ensures { MatchOption result (NoColon text.now) (λ at. IsFirstColon text.now at) }
{
    for (at, b) in text.iter().enumerate() {
        if *b == b':' {
            return Some(at);
        }
    }
    None
}

/// The parts of the text before and after its first colon.
fn at_colon(text: &[u8]) -> Option<(&[u8], &[u8])>
    ensures value { option_map pair_view result ≡ spec.at_colon text.entry.now }
    ensures utf8 { IsUtf8 text.entry.now → IfSome result AreUtf8 }
{
    match first_colon(text) {
        Some(at) => {
            let (kind, rest) = text.split_at(at);
            let (_colon, setting) = rest.split_at(1);
            Some((kind, setting))
        }
        None => None,
    }
}

/// The number that the word gives after this front.
#[tactic(auto, unfolding(crate::specs::Reading::number_after))]
fn number_after(front: &[u8], word: &[u8]) -> Option<u64>
    ensures { result ≡ spec.number_after front.now word.now }
{
    match after(word, front) {
        Some(digits) => count_of(MOST_BUDGET, digits),
        None => None,
    }
}

/// The kind and the setting that the word gives.
#[tactic(auto, unfolding(crate::specs::Reading::audit_after))]
fn audit_after(word: &[u8]) -> Option<(&[u8], &[u8])>
    ensures value { option_map pair_view result ≡ spec.audit_after word.entry.now }
    ensures utf8 { IsUtf8 word.entry.now → IfSome result AreUtf8 }
{
    match after(word, b"--audit=") {
        Some(both) => at_colon(both),
        None => None,
    }
}

/// The option that the word spells.
#[tactic(auto, unfolding(crate::specs::Reading::option_of))]
pub(crate) fn option_of(word: &[u8]) -> Option<Given<'_>>
    ensures value { option_map given_view result ≡ spec.option_of word.entry.now }
    ensures utf8 { IsUtf8 word.entry.now → IfSome result IsGivenUtf8 }
{
    if word == b"--core".as_slice() {
        return Some(Given::Core);
    }
    if let Some(tries) = number_after(b"--tries=", word) {
        return Some(Given::Tries(tries));
    }
    if let Some(nodes) = number_after(b"--nodes=", word) {
        return Some(Given::Nodes(nodes));
    }
    match audit_after(word) {
        Some((kind, setting)) => Some(Given::Audit(kind, setting)),
        None => None,
    }
}
