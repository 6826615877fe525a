//! How many tokens are printed.

ghost use Rattle.std.specs.Prelude.{◌≡◌, ◌≤◌, ◌-◌, ◌^◌, ℕ, [], length, map, min};
ghost use Rattle.sx_term.specs.Term.{tree};
ghost use Rattle.sx_term.specs.Tree.{depth_of, greatest_depth, forest};
ghost use Rattle.sx_grammar.specs.Grammar.{Stem, of_sort};
ghost use Rattle.sx_grammar.specs.Numbered.{symbol};
ghost use Rattle.sx_grammar.specs.Parts.{numbered};
ghost use Rattle.sx_grammar.specs.Print.{print, print_symbols, print_each, in_brackets, Fits};
ghost use Rattle.sx_grammar.specs.Tables.{literals_of};
ghost use Rattle.sx_print.specs.Printed.{HasProductions, HaveProductions, brackets_below, parts_in};
ghost use Rattle.sx_unit.specs.Texts.{printed};
ghost use Rattle.sx_term.specs.Limits.{most_depth};

use sx_grammar::{Grammar, NumberedProduction, NumberedSymbol};
use sx_term::Term;

/// How many brackets stand round a node of the production where this least level is asked for.
fn count_brackets(grammar: &Grammar, production: &NumberedProduction, least: u8) -> u64
    ensures { result ≡ length (in_brackets
        (brackets_below (numbered grammar.now.parts) production.now.sort production.now.level least)
        []) }
{
    if production.level < least {
        match grammar.brackets(production.sort) {
            Some(_) => 2,
            None => 0,
        }
    } else {
        0
    }
}

/// How many tokens are printed of the term where this least level is asked for, or the greatest
/// number where they are more.
#[cycle(count)]
fn count_at(grammar: &Grammar, term: &Term, least: u8) -> u64
    requires depth { depth_of (tree term.now) ≤ most_depth }
    requires built { HasProductions (numbered grammar.now.parts) 0 (tree term.now) }
    ensures { (place : Stem) →
        result ≡ min (length (print (numbered grammar.now.parts) [] (tree term.now) place least))
        (2 ^ 64 - 1) }
{
    match term {
        Term::Node { label, kids } => {
            let production = &grammar.productions()[*label as usize];
            let brackets = count_brackets(grammar, production, least);
            brackets.saturating_add(count_symbols(grammar, &production.symbols, kids))
        }
        Term::Lex { kind: _, text: _ } => 1,
        Term::Var(_) => 1,
    }
}

/// The same of the symbols with the kids in their places.
#[cycle(count)]
fn count_symbols(grammar: &Grammar, symbols: &[NumberedSymbol], kids: &[Term]) -> u64
    requires depth { greatest_depth (forest (map tree kids.now)) ≤ most_depth }
    requires many { parts_in (map (symbol (literals_of grammar.now.parts)) symbols.now) ≡ length
        kids.now }
    requires built { HaveProductions (numbered grammar.now.parts) 0 (forest (map tree kids.now)) }
    ensures { result ≡ min
        (length (print_symbols (map (symbol (literals_of grammar.now.parts)) symbols.now)
        (print_each (numbered grammar.now.parts) [] (forest (map tree kids.now)))))
        (2 ^ 64 - 1) }
{
    let mut total: u64 = 0;
    let mut next = 0;
    for symbol in symbols {
        match *symbol {
            NumberedSymbol::Lit(_) => total = total.saturating_add(1),
            NumberedSymbol::Lex(_) => {
                total = total.saturating_add(count_at(grammar, &kids[next], 0));
                next += 1;
            }
            NumberedSymbol::Part { sort: _, least } => {
                total = total.saturating_add(count_at(grammar, &kids[next], least));
                next += 1;
            }
        }
    }
    total
}

/// How many tokens are printed of a term without variables, or the greatest number where they are
/// more.
pub(crate) fn count_tokens(grammar: &Grammar, term: &Term) -> u64
    requires depth { depth_of (tree term.now) ≤ most_depth }
    requires fits { (sort : ℕ) ×
        Fits (numbered grammar.now.parts) [] (of_sort sort) (tree term.now) }
    ensures { result ≡ min (length (printed grammar.now.parts (tree term.now))) (2 ^ 64 - 1) }
{
    count_at(grammar, term, 0)
}
