//! A goal of a language of sums that is printed.

ghost use Rattle.std.specs.Prelude.{◌≡◌, ◌≤◌, IfOk, IsTrue, Some, length, map, slice_get};
ghost use Rattle.sx_term.specs.Term.{tree};
ghost use Rattle.sx_term.specs.Tree.{depth_of};
ghost use Rattle.sx_term.specs.Shapes.{shapes as shapes_in};
ghost use Rattle.sx_term.specs.Sorts.{HaveSorts};
ghost use Rattle.sx_rules.specs.Deep.{AreShallow};
ghost use Rattle.sx_rules.specs.Modes as modes;
ghost use Rattle.sx_rules.specs.Sets.{forms_in};
ghost use Rattle.sx_rules.specs.Views.{form as form_data, is_out};
ghost use Rattle.sx_notation.specs.Language.{IsLanguage};

use crate::reading::read;
use std::alloc::Global;
use std::test::*;
use sx_notation::{Language, print_goal};
use sx_rules::{Form, Goal, Place};
use sx_term::{NoMemory, Role, Shapes, Sort, Term, Text, Vars, read_core};
use tests_given::languages::SUMS;

/// The term with this core text.
fn term_of(alloc: Global, core: &str) -> Result<Term, NoMemory>
    ensures { IfOk result (λ t. depth_of (tree t) ≤ 1000) }
{
    match read_core(alloc, core.as_bytes(), 0) {
        Ok((term, _)) => Ok(term),
        Err(_) => Err(NoMemory::Memory),
    }
}

/// The terms of an environment without entries and a sum.
fn inputs(alloc: Global) -> Result<Vec<Term>, NoMemory>
    ensures { IfOk result (λ v. AreShallow (map tree v.items)) }
{
    let mut terms = Vec::new(alloc);
    terms.push(term_of(alloc, "(0)")?)?;
    terms.push(term_of(alloc, "(3 (2 n1:1) (2 n1:2))")?)?;
    Ok(terms)
}

/// A variable for a type.
fn outputs(alloc: Global) -> Result<Vec<Term>, NoMemory>
    ensures { IfOk result (λ v. AreShallow (map tree v.items)) }
{
    let mut terms = Vec::new(alloc);
    terms.push(term_of(alloc, "?0")?)?;
    Ok(terms)
}

/// Whether the places are an input, a subject and an output, and the terms have their sorts.
fn fit(all: &Shapes, vars: &[Sort], places: &[Place], inputs: &[Term], outputs: &[Term]) -> bool
    requires inputs { AreShallow (map tree inputs.now) }
    requires outputs { AreShallow (map tree outputs.now) }
    ensures inputs { IsTrue result → HaveSorts (shapes_in all.now) vars.now (map tree inputs.now)
        (modes.inputs (map (λ p. is_out p.role) places.now) (map (λ p. p.sort) places.now)) }
    ensures outputs { IsTrue result → HaveSorts (shapes_in all.now) vars.now (map tree outputs.now)
        (modes.outputs (map (λ p. is_out p.role) places.now) (map (λ p. p.sort) places.now)) }
{
    match (places, inputs, outputs) {
        ([a, b, c], [x, y], [z]) => match (a.role, b.role, c.role) {
            (Role::In, Role::Sub, Role::Out) => {
                all.fits(x, vars, a.sort) && all.fits(y, vars, b.sort) && all.fits(z, vars, c.sort)
            }
            _ => false,
        },
        _ => false,
    }
}

/// The text of the goal of the first form with these inputs, and behind ` / ` the same with these
/// outputs got. The first name is that of a type.
fn put_goals(
    alloc: Global,
    language: &Language,
    form: &Form,
    inputs: Vec<Term>,
    outputs: Vec<Term>,
    vars: &Vars,
) -> Result<Vec<u8>, NoMemory>
    requires language { IsLanguage language.now }
    requires first { slice_get (forms_in language.now.rules) 0 ≡ Some (form_data form.now) }
    requires names { 1 ≤ length vars.now }
    requires inputs { AreShallow (map tree inputs.items) }
    requires outputs { AreShallow (map tree outputs.items) }
{
    let mut into = Vec::new(alloc);
    language.grammar.facts();
    let shapes = language.grammar.shapes(alloc)?;
    if !fit(&shapes, &[Sort::Plain(1)], &form.places, &inputs, &outputs) {
        return Ok(into);
    }
    let grammar = &language.rule_grammar;
    let goal = Goal { form: 0, inputs };
    print_goal(alloc, language, grammar, &goal, None, vars, &mut into)?;
    into.extend_from_slice(b" / ")?;
    print_goal(
        alloc,
        language,
        grammar,
        &goal,
        Some(&outputs),
        vars,
        &mut into,
    )?;
    Ok(into)
}

/// A language's goal of an environment without entries and a sum, without and with its output.
fn goal_texts(
    alloc: Global,
    language: &Language,
    inputs: Vec<Term>,
    outputs: Vec<Term>,
    vars: &Vars,
) -> Result<Vec<u8>, NoMemory>
    requires language { IsLanguage language.now }
    requires names { 1 ≤ length vars.now }
    requires inputs { AreShallow (map tree inputs.items) }
    requires outputs { AreShallow (map tree outputs.items) }
{
    match language.rules.forms().first() {
        Some(form) => put_goals(alloc, language, form, inputs, outputs, vars),
        None => Err(NoMemory::Memory),
    }
}

/// The name `T1`.
fn one_name(alloc: Global) -> Result<Vars, NoMemory>
    ensures { IfOk result (λ v. 1 ≤ length v) }
{
    match Text::make(alloc, b"T1") {
        Ok(name) => {
            let mut vars = Vars::new(alloc);
            vars.add(name)?;
            Ok(vars)
        }
        Err(_) => Err(NoMemory::Memory),
    }
}

/// The texts of that goal.
fn sample_texts(alloc: Global, language: &Language) -> Result<Vec<u8>, NoMemory>
    requires { IsLanguage language.now }
{
    let inputs = inputs(alloc)?;
    let outputs = outputs(alloc)?;
    let vars = one_name(alloc)?;
    let texts = goal_texts(alloc, language, inputs, outputs, &vars);
    drop(vars);
    texts
}

/// Whether these are the texts of that goal.
fn prints(alloc: Global, language: &Language, wanted: &[u8]) -> bool
    requires { IsLanguage language.now }
{
    let texts = sample_texts(alloc, language);
    let answer = match &texts {
        Ok(texts) => texts.as_slice() == wanted,
        Err(_) => false,
    };
    drop(texts);
    answer
}

#[test]
fn a_goal_is_printed(rt: HostRuntime) {
    let alloc = rt.alloc();
    let read = read(alloc, b"Sums", SUMS);
    let is = match &read {
        Ok(language) => prints(
            alloc,
            language,
            b"[] |- ( 1 + 2 ) : _ / [] |- ( 1 + 2 ) : ~T1",
        ),
        Err(_) => false,
    };
    drop(read);
    assert!(rt; is);
}
