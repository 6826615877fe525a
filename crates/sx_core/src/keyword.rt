//! The words that begin the lines of a core file.

ghost use Rattle.std.specs.Prelude.{◌≡◌, MatchOption};
ghost use Rattle.sx_core.specs.Table.{core_keyword_text, IsKeyword, NoKeyword};
ghost use Rattle.sx_core.specs.declared.keyword.Keyword.{Keyword as KeywordOf};

use crate::words::word_len;

/// A word that begins a line of a core file.
#[derive(Clone, Copy)]
pub(crate) enum Keyword {
    Head,
    Sort,
    Con,
    Form,
    Rule,
    If,
    Not,
    Then,
    End,
    Goal,
}

/// The word that begins a line, where it is one.
fn keyword_of(word: &[u8]) -> Option<Keyword>
    ensures { MatchOption result ((k : KeywordOf) → word.now ≡ core_keyword_text k → ⊥)
        (λ k. word.now ≡ core_keyword_text k) }
{
    if word == b"sxcore".as_slice() {
        return Some(Keyword::Head);
    }
    if word == b"sort".as_slice() {
        return Some(Keyword::Sort);
    }
    if word == b"con".as_slice() {
        return Some(Keyword::Con);
    }
    if word == b"form".as_slice() {
        return Some(Keyword::Form);
    }
    if word == b"rule".as_slice() {
        return Some(Keyword::Rule);
    }
    if word == b"if".as_slice() {
        return Some(Keyword::If);
    }
    if word == b"not".as_slice() {
        return Some(Keyword::Not);
    }
    if word == b"then".as_slice() {
        return Some(Keyword::Then);
    }
    if word == b"end".as_slice() {
        return Some(Keyword::End);
    }
    if word == b"goal".as_slice() {
        return Some(Keyword::Goal);
    }
    None
}

/// The word at the front of a line, where it is one that begins a line, and what follows it.
pub(crate) fn split_keyword<'a>(text: &'a [u8]) -> Option<(Keyword, &'a [u8])>
    ensures { MatchOption result (NoKeyword text.entry.now)
        (λ x. IsKeyword text.entry.now x.0 x.1.now) }
{
    let (word, rest) = text.split_at(word_len(text));
    match keyword_of(word) {
        Some(keyword) => Some((keyword, rest)),
        None => None,
    }
}
