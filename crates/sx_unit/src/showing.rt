//! Printed terms.

ghost use Rattle.std.specs.Prelude.{◌≡◌, ◌≤◌, ℕ, [], IfOk};
ghost use Rattle.std.specs.Str.{IsUtf8};
ghost use Rattle.sx_term.specs.Term.{tree};
ghost use Rattle.sx_term.specs.Tree.{depth_of};
ghost use Rattle.sx_grammar.specs.Grammar.{of_sort};
ghost use Rattle.sx_grammar.specs.Parts.{numbered};
ghost use Rattle.sx_grammar.specs.Print.{Fits};
ghost use Rattle.sx_unit.specs.Texts.{print_text};
ghost use Rattle.sx_term.specs.Limits.{most_depth};

use std::alloc::Global;
use sx_grammar::Grammar;
use sx_print::print;
use sx_term::{NoMemory, Term, Vars};

/// The printed text of a term without variables.
pub fn show(alloc: Global, grammar: &Grammar, term: &Term) -> Result<Vec<u8>, NoMemory>
    requires depth { depth_of (tree term.now) ≤ most_depth }
    requires fits { (sort : ℕ) ×
        Fits (numbered grammar.now.parts) [] (of_sort sort) (tree term.now) }
    ensures { IfOk result (λ v. (v.items ≡ print_text grammar.now.parts (tree term.now)) ×
        IsUtf8 v.items) }
{
    let vars = Vars::new(alloc);
    let mut shown = Vec::new(alloc);
    print(alloc, grammar, term, 0, &vars, &mut shown)?;
    Ok(shown)
}
