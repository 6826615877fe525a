//! A goal of a core file in a printed line.

ghost use Rattle.std.specs.Prelude.{◌≡◌, ◌++◌, ◌∷◌, [], OnOk, IfOk, None, Some, map};
ghost use Rattle.sx_term.specs.Core.{core};
ghost use Rattle.sx_term.specs.Term.{tree};
ghost use Rattle.sx_rules.specs.Views.{is_out as role_is_out, forms, goal as goal_data};
ghost use Rattle.sx_top.specs.GoalTexts.{places_text, core_goal_text};
ghost use Rattle.sx_top.specs.Terms.{AreTerms};

use crate::forms::name_of;
use crate::texts::is_out;
use std::alloc::Global;
use sx_rules::{Form, Goal, Place, places_of};
use sx_term::{NoMemory, Term, Text, write_core};

/// Appends the term after a blank.
fn write_term(alloc: Global, term: &Term, into: &mut Vec<u8>) -> Result<(), NoMemory>
    requires { AreTerms (tree term.now ∷ []) }
    ensures { OnOk result (into.new.items ≡ into.old.items ++ 32 ∷ core (tree term.now)) }
{
    into.push(b' ')?;
    write_core(alloc, term, into)?;
    Ok(())
}

/// Appends each place of a goal after a blank: the inputs, and `_` for each output.
fn write_open(
    alloc: Global,
    places: &[Place],
    inputs: &[Term],
    into: &mut Vec<u8>,
) -> Result<(), NoMemory>
    requires { AreTerms (map tree inputs.now) }
    ensures { OnOk result (into.new.items ≡ into.old.items ++ places_text
        (map (λ place. role_is_out place.role) places.now) (map tree inputs.now) None) }
{
    let mut rest = inputs;
    for place in places {
        if is_out(place.role) {
            into.extend_from_slice(b" _")?;
        } else {
            match rest {
                [] => return Ok(()),
                [term, more @ ..] => {
                    write_term(alloc, term, into)?;
                    rest = more;
                }
            }
        }
    }
    Ok(())
}

/// Appends each place of a goal after a blank: the inputs, and the outputs got.
fn write_whole(
    alloc: Global,
    places: &[Place],
    inputs: &[Term],
    got: &[Term],
    into: &mut Vec<u8>,
) -> Result<(), NoMemory>
    requires inputs { AreTerms (map tree inputs.now) }
    requires got { AreTerms (map tree got.now) }
    ensures { OnOk result (into.new.items ≡ into.old.items ++ places_text
        (map (λ place. role_is_out place.role) places.now) (map tree inputs.now)
        (Some (map tree got.now))) }
{
    let mut rest = inputs;
    let mut left = got;
    for place in places {
        if is_out(place.role) {
            match left {
                [] => return Ok(()),
                [term, more @ ..] => {
                    write_term(alloc, term, into)?;
                    left = more;
                }
            }
        } else {
            match rest {
                [] => return Ok(()),
                [term, more @ ..] => {
                    write_term(alloc, term, into)?;
                    rest = more;
                }
            }
        }
    }
    Ok(())
}

/// A goal as it is printed, with `_` for its outputs.
pub fn open_goal(alloc: Global, all: &[Form], goal: &Goal) -> Result<Text, NoMemory>
    requires { AreTerms (map tree goal.now.inputs.items) }
    ensures { IfOk result (λ text. text ≡ core_goal_text (forms all.now)
        (goal_data goal.now) None) }
{
    let mut bytes = Vec::from_slice(alloc, name_of(all, goal.form))?;
    write_open(alloc, places_of(all, goal.form), &goal.inputs, &mut bytes)?;
    Text::of_utf8(alloc, &bytes)
}

/// A goal as it is printed, with the outputs got.
pub fn whole_goal(alloc: Global, all: &[Form], goal: &Goal, got: &[Term]) -> Result<Text, NoMemory>
    requires inputs { AreTerms (map tree goal.now.inputs.items) }
    requires got { AreTerms (map tree got.now) }
    ensures { IfOk result (λ text. text ≡ core_goal_text (forms all.now) (goal_data goal.now)
        (Some (map tree got.now))) }
{
    let mut bytes = Vec::from_slice(alloc, name_of(all, goal.form))?;
    write_whole(
        alloc,
        places_of(all, goal.form),
        &goal.inputs,
        got,
        &mut bytes,
    )?;
    Text::of_utf8(alloc, &bytes)
}
