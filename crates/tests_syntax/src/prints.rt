//! Terms of a small language of functions, printed.

ghost use Rattle.std.specs.Prelude.{◌≡◌, ◌≤◌, OnOk, length};
ghost use Rattle.sx_term.specs.Tree.{depth_of};
ghost use Rattle.sx_term.specs.Term.{tree};

use crate::asserts::assert_same;
use crate::samples::{Sample, grammar_of};
use crate::symbols::{Unmade, are_bytes, term, text};
use std::alloc::Global;
use sx_grammar::Grammar;
use sx_print::print;
use sx_term::{Sort, Term, Vars};

const EXP: Sort = Sort::Typed(0);

const TY: Sort = Sort::Plain(1);

/// The term printed behind `> ` where it has the sort.
fn written(
    alloc: Global,
    grammar: &Grammar,
    term: &Term,
    vars: &Vars,
    sorts: &[Sort],
    of: Sort,
) -> Result<Vec<u8>, Unmade>
    requires depth { depth_of (tree term.now) ≤ 1000 }
    requires named { length sorts.now ≤ length vars.now }
{
    let shapes = grammar.shapes(alloc)?;
    let fits = shapes.fits(term, sorts, of);
    drop(shapes);
    let mut into = Vec::new(alloc);
    if into.extend_from_slice(b"> ").is_ok() && fits {
        let _memory = print(alloc, grammar, term, 0, vars, &mut into).is_ok();
    }
    Ok(into)
}

/// The term with this core text, printed behind `> ` where it has the sort.
fn printed(
    alloc: Global,
    core: &str,
    vars: &Vars,
    sorts: &[Sort],
    of: Sort,
) -> Result<Vec<u8>, Unmade>
    requires { length sorts.now ≤ length vars.now }
{
    let term = term(alloc, core)?;
    match grammar_of(alloc, Sample::Functions) {
        Ok(grammar) => {
            let words = written(alloc, &grammar, &term, vars, sorts, of);
            drop(grammar);
            drop(term);
            words
        }
        Err(unmade) => {
            drop(term);
            Err(unmade)
        }
    }
}

/// Whether the term with this core text, without variables, is printed as these words behind `> `.
fn is_printed_as(alloc: Global, core: &str, of: Sort, words: &[u8]) -> bool {
    let vars = Vars::new(alloc);
    let is = are_bytes(printed(alloc, core, &vars, &[], of), words);
    drop(vars);
    is
}

/// Names the first variable `e`.
fn name(alloc: Global, vars: &mut Vars) -> Result<(), Unmade>
    requires { length vars.old ≡ 0 }
    ensures { OnOk result (1 ≤ length vars.new) }
{
    vars.add(text(alloc, "e")?)?;
    Ok(())
}

/// Whether an application to a variable with the name `e` is printed as these words behind `> `.
fn variable_is_printed_as(alloc: Global, words: &[u8]) -> bool {
    let mut vars = Vars::new(alloc);
    let is = match name(alloc, &mut vars) {
        Ok(()) => are_bytes(printed(alloc, "(2 ?0 (0 i1:x))", &vars, &[EXP], EXP), words),
        Err(_) => false,
    };
    drop(vars);
    is
}

#[test]
fn brackets_where_they_are_needed(rt: HostRuntime) {
    let function = "(2 (1 i1:x (4) (0 i1:x)) (3 n1:1))";
    let left = "(2 (2 (0 i1:f) (0 i1:g)) (0 i1:h))";
    let right = "(2 (0 i1:f) (2 (0 i1:g) (0 i1:h)))";
    let hold = [
        is_printed_as(rt.alloc(), function, EXP, b"> ( \\ x : Int . x ) 1"),
        is_printed_as(rt.alloc(), left, EXP, b"> f g h"),
        is_printed_as(rt.alloc(), right, EXP, b"> f ( g h )"),
    ];
    assert_same(&rt, &hold, &[true; 3]);
}

#[test]
fn arrows_and_variables(rt: HostRuntime) {
    let right = "(5 (4) (5 (4) (4)))";
    let left = "(5 (5 (4) (4)) (4))";
    let hold = [
        is_printed_as(rt.alloc(), right, TY, b"> Int -> Int -> Int"),
        is_printed_as(rt.alloc(), left, TY, b"> ( Int -> Int ) -> Int"),
        variable_is_printed_as(rt.alloc(), b"> ~e x"),
    ];
    assert_same(&rt, &hold, &[true; 3]);
}
