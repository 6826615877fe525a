//! Single tokens, each with a blank behind it.

ghost use Rattle.std.specs.Prelude.{◌≡◌, ◌<◌, ◌++◌, List, ℕ, [], ◌∷◌, length, slice_index_or, OnOk};
ghost use Rattle.sx_grammar.specs.Grammar.{Mark, Stem, Token, is_variable};
ghost use Rattle.sx_grammar.specs.Tables.{literals_of};
ghost use Rattle.sx_grammar.specs.Print.{literal_token};
ghost use Rattle.sx_print.specs.Printed.{AddsTokens, written_tokens, text_of};

use sx_grammar::Grammar;
use sx_term::{NoMemory, Text, Vars};

/// Appends the text and a blank, or a front of them where memory is lacking.
pub fn put_token(text: &Text, into: &mut Vec<u8>) -> Result<(), NoMemory>
    ensures ok { OnOk result ((mark : Mark) →
        AddsTokens (record { mark = mark; text = text.now } ∷ []) into.old.items into.new.items) }
    ensures appends { (more : List ℕ) × (into.new.items ≡ into.old.items ++ more) }
{
    into.extend_from_slice(text.bytes())?;
    into.push(b' ')?;
    Ok(())
}

/// Appends the literal with this number and a blank, or a front of them where memory is lacking.
pub fn put_literal(grammar: &Grammar, number: u32, into: &mut Vec<u8>) -> Result<(), NoMemory>
    requires { number < length (literals_of grammar.now.parts) }
    ensures ok { OnOk result
        (AddsTokens (literal_token (slice_index_or (literals_of grammar.now.parts) number []) ∷
        []) into.old.items into.new.items) }
    ensures appends { (more : List ℕ) × (into.new.items ≡ into.old.items ++ more) }
{
    let literals = grammar.literals();
    put_token(&literals[number as usize], into)
}

/// Appends `~`, the name of the variable and a blank, or a front of them where memory is lacking.
pub(crate) fn put_variable(vars: &Vars, variable: u32, into: &mut Vec<u8>) -> Result<(), NoMemory>
    requires { variable < length vars.now }
    ensures ok { OnOk result ((place : Stem) →
        AddsTokens (record {
          mark = is_variable place;
          text = 126 ∷ slice_index_or vars.now variable [];
        } ∷
        []) into.old.items into.new.items) }
    ensures appends { (more : List ℕ) × (into.new.items ≡ into.old.items ++ more) }
{
    match vars.name(variable) {
        Some(name) => {
            into.push(b'~')?;
            put_token(name, into)
        }
        None => unreachable!(),
    }
}

/// Removes the blank behind the last token, where tokens were written from this place on.
pub fn drop_last_blank(start: usize, into: &mut Vec<u8>)
    ensures { (tokens : List Token) (before : List ℕ) → length before ≡ start →
        into.old.items ≡ before ++ written_tokens tokens →
        into.new.items ≡ before ++ text_of tokens }
{
    let end = into.len();
    if end > start {
        into.truncate(end - 1);
    }
}
