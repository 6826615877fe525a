//! The tokens of a form with what stands at its places, each with a blank behind it.

ghost use Rattle.std.specs.Prelude.{◌≡◌, ◌++◌, List, [], ◌∷◌, ℕ, length, map, codes, OnOk};
ghost use Rattle.sx_grammar.specs.Grammar.{Stem};
ghost use Rattle.sx_grammar.specs.Parts.{numbered};
ghost use Rattle.sx_grammar.specs.Numbered.{symbol};
ghost use Rattle.sx_grammar.specs.Tables.{literals_of};
ghost use Rattle.sx_grammar.specs.Print.{literal_token, print_symbols};
ghost use Rattle.sx_print.specs.Printed.{AddsTokens, parts_in};
ghost use Rattle.sx_print.specs.Rows.{HasLiteralsBelow};
ghost use Rattle.sx_notation.specs.GoalText.{printer};
ghost use Rattle.sx_notation.specs.Placed.{shown_term, IsPuttable, ArePuttable};

use sx_grammar::{Grammar, NumberedSymbol};
use sx_print::{put_literal, put_term};
use sx_term::{NoMemory, Term, Vars};

/// Appends `_` and a blank, or a front of them where memory is lacking.
fn put_nothing(into: &mut Vec<u8>) -> Result<(), NoMemory>
    ensures ok { OnOk result (AddsTokens (literal_token (codes "_") ∷
        []) into.old.items into.new.items) }
    ensures appends { (more : List ℕ) × (into.new.items ≡ into.old.items ++ more) }
{
    into.extend_from_slice(b"_ ")?;
    Ok(())
}

/// Appends the tokens of the term, or `_` where there is none, each with a blank behind it, or a
/// front of them where memory is lacking.
fn put_content(
    grammar: &Grammar,
    content: Option<&Term>,
    least: u8,
    vars: &Vars,
    into: &mut Vec<u8>,
) -> Result<(), NoMemory>
    requires { IsPuttable (numbered grammar.now.parts) (length vars.now) (shown_term content) }
    ensures ok { OnOk result ((place : Stem) →
        AddsTokens (printer (numbered grammar.now.parts) vars.now
        (shown_term content.entry) place least)
        into.old.items into.new.items) }
    ensures appends { (more : List ℕ) × (into.new.items ≡ into.old.items ++ more) }
{
    match content {
        Some(term) => put_term(grammar, term, least, vars, into),
        None => put_nothing(into),
    }
}

/// Appends the tokens of the symbols with what stands at their places, each with a blank behind it,
/// or a front of them where memory is lacking.
pub(crate) fn put_places(
    grammar: &Grammar,
    symbols: &[NumberedSymbol],
    contents: &[Option<&Term>],
    vars: &Vars,
    into: &mut Vec<u8>,
) -> Result<(), NoMemory>
    requires below { HasLiteralsBelow (length (literals_of grammar.now.parts)) symbols.now }
    requires many { parts_in (map (symbol (literals_of grammar.now.parts)) symbols.now) ≡ length
        contents.now }
    requires puttable { ArePuttable (numbered grammar.now.parts) (length vars.now)
        (map shown_term contents.now) }
    ensures ok { OnOk result (AddsTokens
        (print_symbols (map (symbol (literals_of grammar.now.parts)) symbols.now)
        (map (printer (numbered grammar.now.parts) vars.now) (map shown_term contents.entry.now)))
        into.old.items into.new.items) }
    ensures appends { (more : List ℕ) × (into.new.items ≡ into.old.items ++ more) }
{
    let mut next = 0;
    for symbol in symbols {
        match *symbol {
            NumberedSymbol::Lit(number) => put_literal(grammar, number, into)?,
            NumberedSymbol::Lex(_) => {
                put_content(grammar, contents[next], 0, vars, into)?;
                next += 1;
            }
            NumberedSymbol::Part { sort: _, least } => {
                put_content(grammar, contents[next], least, vars, into)?;
                next += 1;
            }
        }
    }
    Ok(())
}
