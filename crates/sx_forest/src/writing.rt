//! The tree text of a reading.

ghost use Rattle.std.specs.Prelude.{◌≡◌, ◌<◌, ◌≤◌, ◌++◌, List, ℕ, [], length, slice_index_or};
ghost use Rattle.std.specs.Prelude.{OnOk, OnErr};
ghost use Rattle.sx_grammar.specs.Parts.{labels};
ghost use Rattle.sx_grammar.specs.Reading.{reading_depth, readings_depth};
ghost use Rattle.sx_forest.specs.Readings.{plain_reading, plain_readings};
ghost use Rattle.sx_forest.specs.Text.{token_texts, tree_text, kids_text, IsWithin, AreWithin};
ghost use Rattle.sx_term.specs.Limits.{most_depth};

use crate::reading::Reading;
use std::alloc::Global;
use sx_grammar::Grammar;
use sx_term::NoMemory;
use sx_token::Token;

/// Appends the tree text of the reading: a node is its label and, where it has kids, `(`, the kids
/// with `,` between them, and `)`; a bracket pair is `[`, the inner reading and `]`; a lexeme or a
/// metavariable is its token's text. Where memory is lacking, `into` is as before.
pub fn write_tree(
    _alloc: Global,
    grammar: &Grammar,
    reading: &Reading,
    tokens: &[Token],
    into: &mut Vec<u8>,
) -> Result<(), NoMemory>
    requires depth { reading_depth (plain_reading reading.now) ≤ most_depth }
    requires within { IsWithin (length grammar.now.parts.productions) (length tokens.now)
        (plain_reading reading.now) }
    ensures ok { OnOk result (into.new.items ≡ into.old.items
        ++ tree_text (labels grammar.now.parts) (token_texts tokens.now)
        (plain_reading reading.now)) }
    ensures err { OnErr result (into.new.items ≡ into.old.items) }
{
    let before = into.len();
    match put_reading(grammar, reading, tokens, into) {
        Ok(()) => Ok(()),
        Err(e) => {
            into.truncate(before);
            Err(e)
        }
    }
}

/// Appends the tree text, or a front of it where memory is lacking.
#[cycle(put)]
fn put_reading(
    grammar: &Grammar,
    reading: &Reading,
    tokens: &[Token],
    into: &mut Vec<u8>,
) -> Result<(), NoMemory>
    requires depth { reading_depth (plain_reading reading.now) ≤ most_depth }
    requires within { IsWithin (length grammar.now.parts.productions) (length tokens.now)
        (plain_reading reading.now) }
    ensures ok { OnOk result (into.new.items ≡ into.old.items
        ++ tree_text (labels grammar.now.parts) (token_texts tokens.now)
        (plain_reading reading.now)) }
    ensures appends { (more : List ℕ) × (into.new.items ≡ into.old.items ++ more) }
{
    match reading {
        Reading::Node {
            label,
            kids,
            from: _,
            to: _,
        } => {
            put_label(grammar, *label, into)?;
            put_kids(grammar, kids, tokens, into)
        }
        Reading::Bracket {
            inner,
            from: _,
            to: _,
        } => {
            into.push(b'[')?;
            put_reading(grammar, inner, tokens, into)?;
            into.push(b']')?;
            Ok(())
        }
        Reading::Lex { token } => put_token(tokens, *token, into),
        Reading::Var { token } => put_token(tokens, *token, into),
    }
}

/// Appends `(`, the tree texts of the kids with `,` between them, and `)`, or nothing where there
/// are no kids, or a front of it where memory is lacking.
#[cycle(put)]
fn put_kids(
    grammar: &Grammar,
    kids: &[Reading],
    tokens: &[Token],
    into: &mut Vec<u8>,
) -> Result<(), NoMemory>
    requires depth { readings_depth (plain_readings kids.now) ≤ most_depth }
    requires within { AreWithin (length grammar.now.parts.productions) (length tokens.now)
        (plain_readings kids.now) }
    ensures ok { OnOk result (into.new.items ≡ into.old.items
        ++ kids_text (labels grammar.now.parts) (token_texts tokens.now)
        (plain_readings kids.now)) }
    ensures appends { (more : List ℕ) × (into.new.items ≡ into.old.items ++ more) }
{
    match kids.split_first() {
        None => Ok(()),
        Some((first, others)) => {
            into.push(b'(')?;
            put_reading(grammar, first, tokens, into)?;
            for kid in others {
                into.push(b',')?;
                put_reading(grammar, kid, tokens, into)?;
            }
            into.push(b')')?;
            Ok(())
        }
    }
}

/// Appends the label of the production with this number, or nothing where memory is lacking.
fn put_label(grammar: &Grammar, label: u32, into: &mut Vec<u8>) -> Result<(), NoMemory>
    requires { label < length grammar.now.parts.productions }
    ensures ok { OnOk result (into.new.items ≡ into.old.items
        ++ slice_index_or (labels grammar.now.parts) label []) }
    ensures err { OnErr result (into.new.items ≡ into.old.items) }
{
    let parts = grammar.parts();
    let production = &parts.productions[label as usize];
    into.extend_from_slice(production.label.bytes())?;
    Ok(())
}

/// Appends the text of the token with this number, or nothing where memory is lacking.
fn put_token(tokens: &[Token], token: u32, into: &mut Vec<u8>) -> Result<(), NoMemory>
    requires { token < length tokens.now }
    ensures ok { OnOk result (into.new.items ≡ into.old.items
        ++ slice_index_or (token_texts tokens.now) token []) }
    ensures err { OnErr result (into.new.items ≡ into.old.items) }
{
    let text = &tokens[token as usize].text;
    into.extend_from_slice(text.bytes())?;
    Ok(())
}
