//! What texts are read as, in words.

ghost use Rattle.std.specs.Prelude.{◌≤◌, length};
ghost use Rattle.sx_grammar.specs.Reading.{reading_depth};
ghost use Rattle.sx_earley.specs.Unknown.{HaveStems};
ghost use Rattle.sx_earley.specs.Completed.{IsSort};
ghost use Rattle.sx_forest.specs.Readings.{plain_reading};
ghost use Rattle.sx_forest.specs.Text.{IsWithin};

use crate::known::{first_sort, have_stems};
use crate::renumbered::{Cut, cut_as, cut_text};
use crate::samples::{Sample, grammar_of};
use crate::symbols::{Unmade, are_bytes};
use std::alloc::Global;
use sx_earley::Metas;
use sx_forest::{ReadError, Reading, read_one, write_tree};
use sx_grammar::Grammar;
use sx_term::Sort;
use sx_token::Token;

/// The words and the number.
fn numbered(alloc: Global, words: &str, number: u64) -> Result<Vec<u8>, Unmade> {
    let all = format!(in alloc; "{words} {number}")?;
    Ok(all.into_bytes())
}

/// The tree text of a reading.
fn tree(
    alloc: Global,
    grammar: &Grammar,
    tokens: &[Token],
    reading: &Reading,
) -> Result<Vec<u8>, Unmade>
    requires depth { reading_depth (plain_reading reading.now) ≤ 1000 }
    requires within { IsWithin (length grammar.now.parts.productions) (length tokens.now)
        (plain_reading reading.now) }
{
    let mut into = Vec::new(alloc);
    let written = write_tree(alloc, grammar, reading, tokens, &mut into);
    match written {
        Ok(()) => Ok(into),
        Err(_) => {
            drop(into);
            Err(Unmade)
        }
    }
}

/// The tree texts of two readings, with ` | ` between them.
fn trees(
    alloc: Global,
    grammar: &Grammar,
    tokens: &[Token],
    one: &Reading,
    other: &Reading,
) -> Result<Vec<u8>, Unmade>
    requires depth { reading_depth (plain_reading one.now) ≤ 1000 }
    requires other_depth { reading_depth (plain_reading other.now) ≤ 1000 }
    requires within { IsWithin (length grammar.now.parts.productions) (length tokens.now)
        (plain_reading one.now) }
    requires other_within { IsWithin (length grammar.now.parts.productions) (length tokens.now)
        (plain_reading other.now) }
{
    let mut into = Vec::new(alloc);
    write_tree(alloc, grammar, one, tokens, &mut into)?;
    into.extend_from_slice(b" | ")?;
    write_tree(alloc, grammar, other, tokens, &mut into)?;
    Ok(into)
}

/// What the tokens are read as: a tree text, two of them, or why there is none.
fn answered(
    alloc: Global,
    grammar: &Grammar,
    start: Sort,
    metas: &Metas,
    tokens: &[Token],
) -> Result<Vec<u8>, Unmade>
    requires short { length tokens.now ≤ 10000 }
    requires start { IsSort grammar.now.parts start }
    requires stems { HaveStems metas.now.stems.items tokens.now }
{
    match read_one(alloc, grammar, start, metas, tokens) {
        Ok(reading) => tree(alloc, grammar, tokens, &reading),
        Err(ReadError::Ambiguous(one, other)) => trees(alloc, grammar, tokens, &one, &other),
        Err(ReadError::NoReading(end)) => numbered(alloc, "no reading beyond token", end as u64),
        Err(ReadError::TooDeep(depth)) => numbered(alloc, "depth", depth),
        Err(ReadError::TooHard) => numbered(alloc, "more items than", 2000000),
        Err(ReadError::Memory) => Err(Unmade),
    }
}

/// The same, where the conditions of the call are met.
fn read_cut(alloc: Global, grammar: &Grammar, cut: &[Token]) -> Result<Vec<u8>, Unmade> {
    let metas = Metas {
        stems: Vec::new(alloc),
    };
    match first_sort(grammar) {
        Some(start) if cut.len() <= 10000 && have_stems(cut) => {
            answered(alloc, grammar, start, &metas, cut)
        }
        _ => Err(Unmade),
    }
}

/// What the text is read as.
fn read_text(alloc: Global, grammar: &Grammar, bytes: &[u8]) -> Result<Vec<u8>, Unmade> {
    let cut = cut_text(alloc, grammar, bytes)?;
    let words = read_cut(alloc, grammar, &cut);
    drop(cut);
    words
}

/// What the text is read as by the sample.
fn told(alloc: Global, sample: Sample, bytes: &[u8]) -> Result<Vec<u8>, Unmade> {
    let grammar = grammar_of(alloc, sample)?;
    let words = read_text(alloc, &grammar, bytes);
    drop(grammar);
    words
}

/// Whether the text is read as these words by the sample.
pub(crate) fn is_read_as(alloc: Global, sample: Sample, bytes: &[u8], words: &[u8]) -> bool {
    are_bytes(told(alloc, sample, bytes), words)
}

/// What the tokens are read as by the sample.
fn told_of(alloc: Global, sample: Sample, cut: Cut) -> Result<Vec<u8>, Unmade> {
    match (cut_as(alloc, cut), grammar_of(alloc, sample)) {
        (Ok(tokens), Ok(grammar)) => {
            let words = read_cut(alloc, &grammar, &tokens);
            drop(grammar);
            drop(tokens);
            words
        }
        (tokens, grammar) => {
            drop(grammar);
            drop(tokens);
            Err(Unmade)
        }
    }
}

/// Whether the text, cut by another sample, is read as these words by the sample.
pub(crate) fn is_cut_read_as(alloc: Global, sample: Sample, cut: Cut, words: &[u8]) -> bool {
    are_bytes(told_of(alloc, sample, cut), words)
}
