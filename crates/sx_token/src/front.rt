//! The blank, comment or token at the front of a text.

ghost use Rattle.std.specs.Prelude.{◌≡◌, ◌≢◌, ℕ, ◌<◌, List, ◌∷◌, length, slice_index, IsTrue};
ghost use Rattle.sx_term.specs.Cutting.{is_symbol, is_blank_or_feed};
ghost use Rattle.std.specs.Char.{is_ascii_digit};
ghost use Rattle.sx_token.specs.Table.{IsLiteralTable};
ghost use Rattle.sx_token.specs.Front.{StandsInFront, IsOther};

use crate::table::{Table, place_of, symbol_at};
use sx_term::runs::{Run, first_char, is_symbol, run_len, word_len};
use sx_term::{LexKind, Mark};

/// What stands at the front of a text, with how many bytes it takes.
#[derive(Clone, Copy)]
pub(crate) enum Front {
    Skip(usize),
    Token(Mark, usize),
    Open,
    Bad,
}

fn is_blank(c: char) -> bool
    ensures { result ≡ is_blank_or_feed c }
{
    (c == ' ' || c == '\t') || (c == '\n' || c == '\r')
}

fn string_front(table: &Table, text: &str, metas: bool) -> Front
    requires { slice_index text.now 0 ≡ 34 }
    ensures { StandsInFront table.now.literals.now metas text.now result }
{
    let (_, after) = text.split_at(1);
    let len = run_len(Run::Inside, after);
    if len < after.len() && after.as_bytes()[len] == b'"' {
        Front::Token(Mark::Lex(LexKind::Str), len + 2)
    } else {
        Front::Open
    }
}

fn number_front(table: &Table, text: &str, metas: bool) -> Front
    requires { IsTrue (is_ascii_digit (slice_index text.now 0)) }
    ensures { StandsInFront table.now.literals.now metas text.now result }
{
    Front::Token(Mark::Lex(LexKind::Num), run_len(Run::Digits, text))
}

fn comment_front(table: &Table, text: &str, metas: bool) -> Front
    requires { (more : List ℕ) × (text.now ≡ 47 ∷ 47 ∷ more) }
    ensures { StandsInFront table.now.literals.now metas text.now result }
{
    let (_, after) = text.split_at(2);
    Front::Skip(run_len(Run::Line, after) + 2)
}

fn meta_front(table: &Table, text: &str, metas: bool) -> Front
    requires { slice_index text.now 0 ≡ 126 }
    ensures { StandsInFront table.now.literals.now metas text.now result }
{
    if !metas {
        return Front::Bad;
    }
    let (_, after) = text.split_at(1);
    let len = word_len(after);
    if len == 0 {
        Front::Bad
    } else {
        Front::Token(Mark::Meta, len + 1)
    }
}

fn symbol_front(table: &Table, text: &str, metas: bool) -> Front
    requires table { IsLiteralTable table.now.literals.now table.now }
    requires symbol { IsTrue (is_symbol (slice_index text.now 0)) }
    requires no_comment { (more : List ℕ) → text.now ≢ 47 ∷ 47 ∷ more }
    ensures { StandsInFront table.now.literals.now metas text.now result }
{
    match symbol_at(table, text) {
        Some(found) => Front::Token(Mark::Lit(found.place), found.len),
        None => Front::Bad,
    }
}

fn word_front(table: &Table, text: &str, metas: bool) -> Front
    requires table { IsLiteralTable table.now.literals.now table.now }
    requires other { IsOther text.now }
    ensures { StandsInFront table.now.literals.now metas text.now result }
{
    let len = word_len(text);
    if len == 0 {
        return Front::Bad;
    }
    let (word, _) = text.split_at(len);
    match place_of(table, word) {
        Some(place) => Front::Token(Mark::Lit(place), len),
        None => Front::Token(Mark::Lex(LexKind::Id), len),
    }
}

/// What stands at the front of a text that is not empty.
pub(crate) fn front_of(table: &Table, text: &str, metas: bool) -> Front
    requires table { IsLiteralTable table.now.literals.now table.now }
    requires nonempty { 0 < length text.now }
    ensures { StandsInFront table.now.literals.now metas text.now result }
{
    let Some(first) = first_char(text) else {
        return Front::Bad;
    };
    if is_blank(first) {
        Front::Skip(1)
    } else if first == '"' {
        string_front(table, text, metas)
    } else if first.is_ascii_digit() {
        number_front(table, text, metas)
    } else if first == '~' {
        meta_front(table, text, metas)
    } else if !is_symbol(first) {
        word_front(table, text, metas)
    } else if text.starts_with("//") {
        comment_front(table, text, metas)
    } else {
        symbol_front(table, text, metas)
    }
}
