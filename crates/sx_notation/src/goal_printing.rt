//! Printing of goals.

ghost use Rattle.std.specs.Prelude.{◌≡◌, ◌≤◌, ◌<◌, ◌+◌, ◌++◌, Some, map, length, option_map};
ghost use Rattle.std.specs.Prelude.{slice_get, MatchOption, OnOk, OnErr};
ghost use Rattle.std.specs.Str.{IsUtf8};
ghost use Rattle.sx_term.specs.Term.{tree};
ghost use Rattle.sx_grammar.specs.Parts.{numbered};
ghost use Rattle.sx_grammar.specs.Numbered.{production};
ghost use Rattle.sx_grammar.specs.Tables.{literals_of};
ghost use Rattle.sx_print.specs.Rows.{HasLiteralsBelow};
ghost use Rattle.sx_rules.specs.Deep.{AreShallow};
ghost use Rattle.sx_rules.specs.Sets.{forms_in};
ghost use Rattle.sx_rules.specs.Views as view;
ghost use Rattle.sx_notation.specs.Forms.{HasForms, GoalFits};
ghost use Rattle.sx_notation.specs.GoalText.{form_label, goal_text};

use crate::content::contents;
use crate::language::Language;
use crate::walk::put_places;
use std::alloc::Global;
use sx_grammar::{Grammar, NumberedProduction};
use sx_print::drop_last_blank;
use sx_rules::Goal;
use sx_term::{NoMemory, Term, Vars};

/// The production of the form with this number, where there are so many forms.
fn production_of(grammar: &Grammar, forms: usize, form: u32) -> &NumberedProduction
    requires room { forms + 3 ≤ length grammar.now.parts.productions }
    requires form { form < forms }
    ensures same { slice_get (numbered grammar.now.parts).productions
        (form_label (length grammar.now.parts.productions) forms form)
        ≡ Some (production (literals_of grammar.now.parts) result.now) }
    ensures below { HasLiteralsBelow (length (literals_of grammar.now.parts))
        result.now.symbols.items }
{
    let productions = grammar.productions();
    let label = productions.len() - (forms + 3) + form as usize;
    &productions[label]
}

/// Appends the text of the goal: the symbols of its form with one blank between tokens, each input
/// at the least level of its place, and `_` for each output, or the outputs got, at the least
/// levels of their places. Variables are `~` and their names. The grammar is one by which rules are
/// read. Where memory is lacking, `into` is as before.
pub fn print_goal(
    alloc: Global,
    language: &Language,
    grammar: &Grammar,
    goal: &Goal,
    got: Option<&Vec<Term>>,
    vars: &Vars,
    into: &mut Vec<u8>,
) -> Result<(), NoMemory>
    requires forms { HasForms grammar.now.parts (forms_in language.now.rules) }
    requires fits { GoalFits (numbered grammar.now.parts) (length vars.now)
        (forms_in language.now.rules) (view.goal goal.now)
        (option_map (λ w. map tree w.now.items) got) }
    requires inputs { AreShallow (view.goal goal.now).terms }
    requires outputs { MatchOption got Unit (λ w. AreShallow (map tree w.now.items)) }
    ensures text { OnOk result (into.new.items ≡ into.old.items ++
        goal_text grammar.now.parts vars.now (forms_in language.now.rules) (view.goal goal.now)
        (option_map (λ w. map tree w.now.items) got.entry)) }
    ensures utf8 { OnOk result (IsUtf8
        (goal_text grammar.now.parts vars.now (forms_in language.now.rules) (view.goal goal.now)
        (option_map (λ w. map tree w.now.items) got.entry))) }
    ensures err { OnErr result (into.new.items ≡ into.old.items) }
{
    let forms = language.rules.forms();
    let places = &forms[goal.form as usize].places;
    let here = contents(alloc, places, &goal.inputs, got)?;
    let production = production_of(grammar, forms.len(), goal.form);
    let before = into.len();
    match put_places(grammar, &production.symbols, &here, vars, into) {
        Ok(()) => {
            drop_last_blank(before, into);
            Ok(())
        }
        Err(e) => {
            into.truncate(before);
            Err(e)
        }
    }
}
