//! The texts of a core problem.

ghost use Rattle.std.specs.Prelude.{◌≡◌, ◌++◌, ◌∷◌, [], OnOk, IfOk, map};
ghost use Rattle.std.specs.List.{AllByRecursion};
ghost use Rattle.sx_term.specs.Term.{tree};
ghost use Rattle.sx_rules.specs.EntryView.{entries};
ghost use Rattle.sx_rules.specs.ListText.{IsEntry};
ghost use Rattle.sx_rules.specs.Sets.{names_in, rules_in};
ghost use Rattle.sx_rules.specs.Views.{is_out as role_is_out, forms, goal as goal_data};
ghost use Rattle.sx_top.specs.CoreTexts.{subjects, term_lines, subject_text};
ghost use Rattle.sx_top.specs.CoreTexts.{list_text as text_of_list};
ghost use Rattle.sx_top.specs.Terms.{AreTerms};

use std::alloc::Global;
use sx_rules::{Entry, Form, Goal, Place, RuleSet, places_of, write_list};
use sx_term::{NoMemory, Role, Term, Text, write_core};

pub fn is_out(role: Role) -> bool
    ensures { result ≡ role_is_out role }
{
    match role {
        Role::In => false,
        Role::Sub => false,
        Role::Out => true,
    }
}

/// Appends the core text of the term, on a line.
fn write_line(alloc: Global, term: &Term, into: &mut Vec<u8>) -> Result<(), NoMemory>
    requires { AreTerms (tree term.now ∷ []) }
    ensures { OnOk result (into.new.items ≡ into.old.items ++ term_lines (tree term.now ∷ [])) }
{
    write_core(alloc, term, into)?;
    into.push(b'\n')?;
    Ok(())
}

/// Appends the core text of each subject, on a line.
fn write_subjects(
    alloc: Global,
    places: &[Place],
    inputs: &[Term],
    into: &mut Vec<u8>,
) -> Result<(), NoMemory>
    requires { AreTerms (map tree inputs.now) }
    ensures { OnOk result (into.new.items ≡ into.old.items ++ term_lines
        (subjects (map (λ place. place.role) places.now) (map tree inputs.now))) }
{
    let mut rest = inputs;
    for place in places {
        match place.role {
            Role::Out => {}
            Role::In => match rest {
                [] => return Ok(()),
                [_, more @ ..] => rest = more,
            },
            Role::Sub => match rest {
                [] => return Ok(()),
                [term, more @ ..] => {
                    write_line(alloc, term, into)?;
                    rest = more;
                }
            },
        }
    }
    Ok(())
}

/// The text of the `.base` file: the core text of the goal's subject, on a line.
pub fn base_text(alloc: Global, all: &[Form], goal: &Goal) -> Result<Vec<u8>, NoMemory>
    requires { AreTerms (map tree goal.now.inputs.items) }
    ensures { IfOk result (λ bytes.
        bytes.items ≡ subject_text (forms all.now) (goal_data goal.now)) }
{
    let mut bytes = Vec::new(alloc);
    write_subjects(alloc, places_of(all, goal.form), &goal.inputs, &mut bytes)?;
    Ok(bytes)
}

/// The text of the `.int` file: the core text of each output, on a line.
pub fn interface_text(alloc: Global, outputs: &[Term]) -> Result<Vec<u8>, NoMemory>
    requires { AreTerms (map tree outputs.now) }
    ensures { IfOk result (λ bytes. bytes.items ≡ term_lines (map tree outputs.now)) }
{
    let mut bytes = Vec::new(alloc);
    for output in outputs {
        write_line(alloc, output, &mut bytes)?;
    }
    Ok(bytes)
}

/// The text of the `.der` file: the first line, and then each entry on a line.
pub fn list_text(alloc: Global, rules: &RuleSet, list: &[Entry]) -> Result<Vec<u8>, NoMemory>
    requires { AllByRecursion (IsEntry (names_in rules.now)) list.now }
    ensures { IfOk result (λ bytes.
        bytes.items ≡ text_of_list (rules_in rules.now) (entries list.now)) }
{
    let mut bytes = Vec::new(alloc);
    write_list(alloc, rules, list, &mut bytes)?;
    Ok(bytes)
}
