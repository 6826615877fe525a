//! What stands at the front of a text.

ghost use Rattle.std.specs.Prelude.{◌≡◌, ◌<◌, ◌≤◌, ◌++◌, length, take, drop, [], IfNone, IfSome};
ghost use Rattle.std.specs.Char.{encode_utf8, len_utf8};
ghost use Rattle.std.specs.Str.{IsCharBoundary};
ghost use Rattle.sx_term.specs.Cutting.{is_symbol, begins_word, BeginsWhere, IsMaximalRun, IsWord};
ghost use Rattle.sx_term.specs.Run.{passes};

use unicode_ident::{is_xid_continue, is_xid_start};

/// The characters of which a run is made.
#[derive(Clone, Copy)]
pub enum Run {
    /// The characters that can go on with a word.
    Word,
    /// The ASCII digits.
    Digits,
    /// What may stand between the quotes of a string: any but a quote and a line feed.
    Inside,
    /// What may stand in a comment: any but a line feed.
    Line,
    /// The symbol characters.
    Symbols,
}

/// Whether the character is ASCII punctuation other than `"`, `_` and `~`.
pub fn is_symbol(c: char) -> bool
    ensures { result ≡ is_symbol c }
{
    c.is_ascii_punctuation() && !(c == '"' || (c == '_' || c == '~'))
}

/// Whether the character goes on with the run.
fn passes(run: Run, c: char) -> bool
    ensures { result ≡ passes run c }
{
    match run {
        Run::Word => is_xid_continue(c),
        Run::Digits => c.is_ascii_digit(),
        Run::Inside => !(c == '"' || c == '\n'),
        Run::Line => c != '\n',
        Run::Symbols => is_symbol(c),
    }
}

/// How many bytes the longest run at the front of the text takes.
pub fn run_len(run: Run, text: &str) -> usize
    ensures run { IsMaximalRun (passes run) (take result text.now) (drop result text.now) }
    ensures bound { result ≤ length text.now }
    ensures boundary { IsCharBoundary text.now result }
{
    text.find(|c: char| !passes(run, c)).unwrap_or(text.len())
}

/// Whether a word can begin with the character.
fn begins_word(c: char) -> bool
    ensures { result ≡ begins_word c }
{
    is_xid_start(c) || c == '_'
}

/// The first character of the text, or None of an empty text.
pub fn first_char(text: &str) -> Option<char>
    ensures none { IfNone result (text.now ≡ []) }
    ensures some { IfSome result (λ c. text.now ≡ encode_utf8 c ++ drop (len_utf8 c) text.now) }
    ensures boundary { IfSome result (λ c. IsCharBoundary text.now (len_utf8 c)) }
{
    text.chars().next()
}

/// How many bytes the word at the front of the text takes, or 0 where none begins there.
pub fn word_len(text: &str) -> usize
    ensures word { 0 < result → IsWord (take result text.now) (drop result text.now) }
    ensures none { result ≡ 0 → ¬ (BeginsWhere begins_word text.now) }
    ensures bound { result ≤ length text.now }
    ensures boundary { IsCharBoundary text.now result }
{
    let Some(first) = first_char(text) else {
        return 0;
    };
    if !begins_word(first) {
        return 0;
    }
    let (_, others) = text.split_at(first.len_utf8());
    first.len_utf8() + run_len(Run::Word, others)
}
