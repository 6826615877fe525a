//! Printing.

ghost use Rattle.std.specs.Prelude.{◌≡◌, ◌≤◌, ◌++◌, ℕ, [], length, OnOk, OnErr};
ghost use Rattle.std.specs.Str.{IsUtf8};
ghost use Rattle.sx_term.specs.Term.{tree};
ghost use Rattle.sx_term.specs.Tree.{depth_of};
ghost use Rattle.sx_grammar.specs.Grammar.{Stem, of_sort};
ghost use Rattle.sx_grammar.specs.Parts.{numbered};
ghost use Rattle.sx_grammar.specs.Tables.{literals_of};
ghost use Rattle.sx_grammar.specs.Print as plain;
ghost use Rattle.sx_grammar.specs.Print.{Fits};
ghost use Rattle.sx_print.specs.Printed.{text_of, IsPrintableTerm};
ghost use Rattle.sx_print.specs.Cut.{HasLexemes, IsCutInto, HasReading};
ghost use Rattle.sx_term.specs.Limits.{most_depth};

use crate::walk::put_term;
use crate::writing::drop_last_blank;
use std::alloc::Global;
use sx_grammar::Grammar;
use sx_term::{NoMemory, Term, Vars};

/// Appends the tokens of the term with one blank between them, and brackets exactly where a node's
/// level is below the least level asked for. A variable stands as `~` and its name. Where memory is
/// lacking, `into` is as before.
pub fn print(
    _alloc: Global,
    grammar: &Grammar,
    term: &Term,
    least: u8,
    vars: &Vars,
    into: &mut Vec<u8>,
) -> Result<(), NoMemory>
    requires depth { depth_of (tree term.now) ≤ most_depth }
    requires printable { IsPrintableTerm (numbered grammar.now.parts) (length vars.now) least
        (tree term.now) }

    // The printed tokens are appended. Their text is the same at each place: a place decides only
    // how variables are marked.
    ensures text { OnOk result ((place : Stem) →
        into.new.items ≡ into.old.items ++ text_of
        (plain.print (numbered grammar.now.parts) vars.now (tree term.now) place least)) }
    ensures utf8 { OnOk result ((place : Stem) →
        IsUtf8 (text_of (plain.print (numbered grammar.now.parts) vars.now
        (tree term.now) place least))) }

    // Without variables the text is cut into just these tokens, and they are read as the term.
    ensures cut { OnOk result ((place : Stem) →
        Fits (numbered grammar.now.parts) [] place (tree term.now) →
        HasLexemes (literals_of grammar.now.parts) (tree term.now) →
        let printed = plain.print (numbered grammar.now.parts) vars.now (tree term.now) place
        least in
        IsCutInto (literals_of grammar.now.parts) printed (text_of printed)) }
    ensures read { (sort : ℕ) → Fits (numbered grammar.now.parts) [] (of_sort sort)
        (tree term.now) →
        let printed = plain.print (numbered grammar.now.parts) vars.now (tree term.now)
        (of_sort sort) least in
        HasReading (numbered grammar.now.parts) vars.now printed sort least (tree term.now) }

    ensures err { OnErr result (into.new.items ≡ into.old.items) }
{
    grammar.facts();
    let before = into.len();
    match put_term(grammar, term, least, vars, into) {
        Ok(()) => {
            drop_last_blank(before, into);
            Ok(())
        }
        Err(e) => {
            into.truncate(before);
            Err(e)
        }
    }
}
