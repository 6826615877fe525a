//! A reading of `( x ) + ~y`, worked out by hand: where its parts stand, its term and a part of its
//! text.

ghost use Rattle.std.specs.Prelude.{◌≡◌, IfOk, length, slice_get};
ghost use Rattle.sx_grammar.specs.Reading.{branch, bracket, leaf, variable, ◌▸◌, done};
ghost use Rattle.sx_forest.specs.Names.{IsLexeme, IsMetavariable};
ghost use Rattle.sx_forest.specs.Readings.{plain_reading};

use crate::asserts::assert_same;
use crate::samples::{Sample, grammar_of};
use crate::symbols::{Unmade, are_bytes, text};
use std::alloc::Global;
use sx_forest::{Reading, place_of, strip, write_tree};
use sx_grammar::Grammar;
use sx_term::{LexKind, Mark, Path, Term, Vars};
use sx_token::Token;

/// A lexeme in brackets: the tokens from 0 to 3.
fn bracketed(alloc: Global) -> Result<Reading, Unmade>
    ensures { IfOk result (λ r. plain_reading r ≡ bracket (leaf 1) 0 3) }
{
    Ok(Reading::Bracket {
        inner: Box::new(alloc, Reading::Lex { token: 1 })?,
        from: 0,
        to: 3,
    })
}

/// Their sum with a metavariable.
fn sum(alloc: Global) -> Result<Reading, Unmade>
    ensures { IfOk result (λ r. plain_reading r
        ≡ branch 0 (bracket (leaf 1) 0 3 ▸ variable 4 ▸ done) 0 5) }
{
    let mut kids = Vec::new(alloc);
    kids.push(bracketed(alloc)?)?;
    kids.push(Reading::Var { token: 4 })?;
    Ok(Reading::Node {
        label: 0,
        kids,
        from: 0,
        to: 5,
    })
}

/// Whether the part at the path stands at this place, or there is none where it is None.
fn stands_in(alloc: Global, reading: &Reading, steps: &[usize], at: Option<u32>) -> bool {
    match Vec::from_slice(alloc, steps) {
        Ok(steps) => {
            let path = Path { steps };
            let place = place_of(reading, &path);
            drop(path);
            place == at
        }
        Err(_) => false,
    }
}

/// The same of the sum.
fn stands_at(alloc: Global, steps: &[usize], at: Option<u32>) -> bool {
    match sum(alloc) {
        Ok(reading) => {
            let stands = stands_in(alloc, &reading, steps, at);
            drop(reading);
            stands
        }
        Err(_) => false,
    }
}

#[test]
fn brackets_do_not_belong_to_a_part(rt: HostRuntime) {
    let alloc = rt.alloc();
    let hold = [
        stands_at(alloc, &[], Some(0)),
        stands_at(alloc, &[0], Some(1)),
        stands_at(alloc, &[1], Some(4)),
        stands_at(alloc, &[2], None),
    ];
    assert_same(&rt, &hold, &[true; 4]);
}

fn token(alloc: Global, mark: Mark, bytes: &str) -> Result<Token, Unmade>
    ensures { IfOk result (λ t. (t.mark ≡ mark) × (t.text ≡ bytes.now)) }
{
    Ok(Token {
        mark,
        text: text(alloc, bytes)?,
        from: 0,
        to: 0,
    })
}

/// The tokens `(`, `x`, `)`, `+` and a metavariable.
fn tokens(alloc: Global, variable: &str) -> Result<Vec<Token>, Unmade>
    ensures five { IfOk result (λ v. length v.items ≡ 5) }
    ensures lexeme { IfOk result (λ v. IsLexeme (slice_get v.items 1)) }
    ensures metavariable { IfOk result (λ v. IsMetavariable (slice_get v.items 4)) }
{
    let mut all = Vec::new(alloc);
    all.push(token(alloc, Mark::Lit(0), "(")?)?;
    all.push(token(alloc, Mark::Lex(LexKind::Id), "x")?)?;
    all.push(token(alloc, Mark::Lit(1), ")")?)?;
    all.push(token(alloc, Mark::Lit(2), "+")?)?;
    all.push(token(alloc, Mark::Meta, variable)?)?;
    Ok(all)
}

/// Whether the term is a node with so many kids, and this the name of the first variable.
fn is_told(term: &Term, vars: &Vars, count: usize, first: &str) -> bool {
    match (term, vars.name(0)) {
        (Term::Node { label: _, kids }, Some(name)) => {
            kids.len() == count && name.as_str() == first
        }
        _ => false,
    }
}

/// The same of the term of the sum with this metavariable.
fn is_stripped(alloc: Global, variable: &str, count: usize, first: &str) -> bool {
    match (tokens(alloc, variable), sum(alloc)) {
        (Ok(tokens), Ok(reading)) => {
            let mut vars = Vars::new(alloc);
            let term = strip(alloc, &reading, &tokens, &mut vars);
            drop(reading);
            drop(tokens);
            let is = match &term {
                Ok(term) => is_told(term, &vars, count, first),
                Err(_) => false,
            };
            drop(term);
            drop(vars);
            is
        }
        (tokens, reading) => {
            drop(reading);
            drop(tokens);
            false
        }
    }
}

#[test]
fn a_name_is_numbered(rt: HostRuntime) {
    let alloc = rt.alloc();
    let hold = [
        is_stripped(alloc, "~y", 2, "y"),
        is_stripped(alloc, "y", 2, "y"),
    ];
    assert_same(&rt, &hold, &[true; 2]);
}

/// Writes the tree text of the brackets behind `> `.
fn written(alloc: Global, grammar: &Grammar) -> Result<Vec<u8>, Unmade> {
    match (tokens(alloc, "~y"), bracketed(alloc)) {
        (Ok(tokens), Ok(reading)) => {
            let mut into = Vec::new(alloc);
            let is_written = into.extend_from_slice(b"> ").is_ok()
                && write_tree(alloc, grammar, &reading, &tokens, &mut into).is_ok();
            drop(reading);
            drop(tokens);
            if !is_written {
                into.clear();
            }
            Ok(into)
        }
        (tokens, reading) => {
            drop(reading);
            drop(tokens);
            Err(Unmade)
        }
    }
}

/// The same by a grammar.
fn text_of_brackets(alloc: Global) -> Result<Vec<u8>, Unmade> {
    let grammar = grammar_of(alloc, Sample::Rows)?;
    let words = written(alloc, &grammar);
    drop(grammar);
    words
}

#[test]
fn the_text_of_brackets(rt: HostRuntime) {
    assert_same(
        &rt,
        &are_bytes(text_of_brackets(rt.alloc()), b"> [x]"),
        &true,
    );
}
