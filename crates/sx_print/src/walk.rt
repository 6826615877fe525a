//! The tokens of a term, each with a blank behind it.

ghost use Rattle.std.specs.Prelude.{◌≡◌, ◌≤◌, ◌++◌, List, ℕ, length, map, OnOk};
ghost use Rattle.sx_term.specs.Term.{tree};
ghost use Rattle.sx_term.specs.Tree.{depth_of, greatest_depth, forest};
ghost use Rattle.sx_grammar.specs.Grammar.{Stem};
ghost use Rattle.sx_grammar.specs.Parts.{numbered};
ghost use Rattle.sx_grammar.specs.Numbered.{symbol};
ghost use Rattle.sx_grammar.specs.Tables.{literals_of, IsNumberedPair};
ghost use Rattle.sx_grammar.specs.Print.{print_symbols, print, print_each};
ghost use Rattle.sx_print.specs.Printed.{AddsTokens, HasProductions, HaveProductions};
ghost use Rattle.sx_print.specs.Printed.{brackets_below, parts_in};
ghost use Rattle.sx_print.specs.Rows.{HasLiteralsBelow};
ghost use Rattle.sx_term.specs.Limits.{most_depth};

use crate::writing::{put_literal, put_token, put_variable};
use sx_grammar::{Grammar, NumberedProduction, NumberedSymbol};
use sx_term::{NoMemory, Term, Vars};

/// The numbers of the literals that stand round a node of the production, or None where its level
/// is not below the least.
fn pair_for(grammar: &Grammar, production: &NumberedProduction, least: u8) -> Option<(u32, u32)>
    ensures { IsNumberedPair (literals_of grammar.now.parts)
        (brackets_below (numbered grammar.now.parts) production.now.sort production.now.level
        least) result }
{
    if production.level < least {
        grammar.brackets(production.sort)
    } else {
        None
    }
}

/// Appends the tokens of the term, each with a blank behind it, or a front of them where memory is
/// lacking.
#[cycle(put)]
pub fn put_term(
    grammar: &Grammar,
    term: &Term,
    least: u8,
    vars: &Vars,
    into: &mut Vec<u8>,
) -> Result<(), NoMemory>
    requires depth { depth_of (tree term.now) ≤ most_depth }
    requires built { HasProductions (numbered grammar.now.parts) (length vars.now) (tree term.now) }
    ensures ok { OnOk result ((place : Stem) →
        AddsTokens (print (numbered grammar.now.parts) vars.now
        (tree term.now) place least) into.old.items into.new.items) }
    ensures appends { (more : List ℕ) × (into.new.items ≡ into.old.items ++ more) }
{
    match term {
        Term::Node { label, kids } => {
            let production = &grammar.productions()[*label as usize];
            match pair_for(grammar, production, least) {
                None => put_symbols(grammar, &production.symbols, kids, vars, into),
                Some((opening, closing)) => {
                    put_literal(grammar, opening, into)?;
                    put_symbols(grammar, &production.symbols, kids, vars, into)?;
                    put_literal(grammar, closing, into)
                }
            }
        }
        Term::Lex { kind: _, text } => put_token(text, into),
        Term::Var(variable) => put_variable(vars, *variable, into),
    }
}

/// Appends the tokens of the symbols with the kids in their places, each with a blank behind it, or
/// a front of them where memory is lacking.
#[cycle(put)]
fn put_symbols(
    grammar: &Grammar,
    symbols: &[NumberedSymbol],
    kids: &[Term],
    vars: &Vars,
    into: &mut Vec<u8>,
) -> Result<(), NoMemory>
    requires depth { greatest_depth (forest (map tree kids.now)) ≤ most_depth }
    requires below { HasLiteralsBelow (length (literals_of grammar.now.parts)) symbols.now }
    requires many { parts_in (map (symbol (literals_of grammar.now.parts)) symbols.now)
        ≡ length kids.now }
    requires built { HaveProductions (numbered grammar.now.parts) (length vars.now)
        (forest (map tree kids.now)) }
    ensures ok { OnOk result (AddsTokens
        (print_symbols (map (symbol (literals_of grammar.now.parts)) symbols.now)
        (print_each (numbered grammar.now.parts) vars.now (forest (map tree kids.now))))
        into.old.items into.new.items) }
    ensures appends { (more : List ℕ) × (into.new.items ≡ into.old.items ++ more) }
{
    let mut next = 0;
    for symbol in symbols {
        match *symbol {
            NumberedSymbol::Lit(number) => put_literal(grammar, number, into)?,
            NumberedSymbol::Lex(_) => {
                put_term(grammar, &kids[next], 0, vars, into)?;
                next += 1;
            }
            NumberedSymbol::Part { sort: _, least } => {
                put_term(grammar, &kids[next], least, vars, into)?;
                next += 1;
            }
        }
    }
    Ok(())
}
