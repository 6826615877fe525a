//! Lines that are read by the grammars of languages of sums, and lines that are refused.

ghost use Rattle.std.specs.Prelude.{◌≤◌, ◌+◌, ◌<◌, ◌^◌, IfOk, IfSome, length};
ghost use Rattle.sx_earley.specs.Completed.{IsSort};
ghost use Rattle.sx_term.specs.Term.{tree};
ghost use Rattle.sx_term.specs.Tree.{depth_of};

use crate::asserts::assert_same;
use crate::reading::{has_readings, read};
use std::alloc::Global;
use std::test::*;
use sx_earley::Metas;
use sx_grammar::Grammar;
use sx_notation::{Directive, Kind, Language, NotationError, read_directive, read_text};
use sx_term::{NoMemory, Sort, Term, Text, Vars, read_core};
use tests_given::languages::{AMB, SUMS};
use tests_given::{Told, refusal};

/// The sort with this number, if there is one.
fn sort_at(grammar: &Grammar, number: u32) -> Option<Sort>
    ensures { IfSome result (IsSort grammar.now.parts) }
{
    let line = grammar.parts().sorts.get(number as usize)?;
    if line.typed {
        return Some(Sort::Typed(number));
    }
    Some(Sort::Plain(number))
}

/// The name `e`.
fn one_name(alloc: Global) -> Result<Vars, NoMemory>
    ensures { IfOk result (λ v. length v ≤ 1) }
{
    match Text::make(alloc, b"e") {
        Ok(name) => {
            let mut vars = Vars::new(alloc);
            vars.add(name)?;
            Ok(vars)
        }
        Err(_) => Err(NoMemory::Memory),
    }
}

/// Whether the variable with this number has this name.
fn is_name(vars: &Vars, number: u32, wanted: &str) -> bool {
    match vars.name(number) {
        Some(name) => name.as_str() == wanted,
        None => false,
    }
}

/// Whether the names are `e`, `C` and `T12`.
fn are_names(vars: &Vars) -> bool {
    is_name(vars, 0, "e")
        && is_name(vars, 1, "C")
        && is_name(vars, 2, "T12")
        && vars.name(3).is_none()
}

/// Whether the term has this core text.
fn is_term(alloc: Global, term: &Term, core: &str) -> bool
    requires { depth_of (tree term.now) ≤ 1000 }
{
    match read_core(alloc, core.as_bytes(), 0) {
        Ok((wanted, _)) => term.same(&wanted),
        Err(_) => false,
    }
}

/// Whether the line is read by the rules as the term with this core text, and adds `C` and `T12`
/// to the name `e`.
fn is_read_as(
    alloc: Global,
    language: &Language,
    sort: Sort,
    line: &[u8],
    core: &str,
    vars: &mut Vars,
) -> bool
    requires sort { IsSort language.now.rule_grammar.parts sort }
    requires short { length line.now ≤ 262144 }
    requires room { length vars.now + 10000 < 2 ^ 32 }
{
    match read_text(
        alloc,
        &language.rule_grammar,
        sort,
        &language.metas,
        line,
        7,
        vars,
    ) {
        Ok(term) => {
            let answer = is_term(alloc, &term, core) && are_names(vars);
            drop(term);
            answer
        }
        Err(_) => false,
    }
}

/// The same of a line of the rules of the language.
fn is_rule_line(alloc: Global, language: &Language, line: &[u8], core: &str) -> bool {
    if line.len() > 1000 {
        return false;
    }
    let sort = match sort_at(&language.rule_grammar, 3) {
        Some(sort) => sort,
        None => return false,
    };
    match one_name(alloc) {
        Ok(names) => {
            let mut vars = names;
            let answer = is_read_as(alloc, language, sort, line, core, &mut vars);
            drop(vars);
            answer
        }
        Err(_) => false,
    }
}

#[test]
fn a_line_is_read(rt: HostRuntime) {
    let alloc = rt.alloc();
    let line = b"~C |- (~e + 1):~T12 // a comment".as_slice();
    let read = read(alloc, b"Sums", SUMS);
    let is_read = match &read {
        Ok(language) => is_rule_line(alloc, language, line, "(5 ?1 (3 ?0 (2 n1:1)) ?2)"),
        Err(_) => false,
    };
    drop(read);
    assert!(rt; is_read);
}

/// Why the text with the number 7 is refused as the sort with this number, if it is. The name `e`
/// is known, and stays the only one where the text is refused.
fn come_of(
    alloc: Global,
    grammar: &Grammar,
    metas: &Metas,
    number: u32,
    text: &[u8],
) -> Result<(), NotationError> {
    let sort = match sort_at(grammar, number) {
        Some(sort) if text.len() <= 1000 => sort,
        _ => return Err(NotationError::Memory),
    };
    let mut vars = one_name(alloc)?;
    let read = read_text(alloc, grammar, sort, metas, text, 7, &mut vars);
    let stay = vars.name(0).is_some() && vars.name(1).is_none();
    drop(vars);
    match read {
        Ok(term) => {
            drop(term);
            Ok(())
        }
        Err(error) => {
            if stay {
                return Err(error);
            }
            drop(error);
            Err(NotationError::Memory)
        }
    }
}

/// What comes of a line of the rules of the language `Sums`.
fn come_of_line(alloc: Global, line: &[u8]) -> Result<(), NotationError> {
    let read = read(alloc, b"Sums", SUMS);
    let answer = match &read {
        Ok(language) => come_of(alloc, &language.rule_grammar, &language.metas, 3, line),
        Err(_) => Err(NotationError::Memory),
    };
    drop(read);
    answer
}

/// The same of a line of the rules of the language `Amb`.
fn come_of_amb(alloc: Global, line: &[u8]) -> Result<(), NotationError> {
    let read = read(alloc, b"Amb", AMB);
    let answer = match &read {
        Ok(language) => come_of(alloc, &language.rule_grammar, &language.metas, 3, line),
        Err(_) => Err(NotationError::Memory),
    };
    drop(read);
    answer
}

/// The same of a sum of the language `Amb`.
fn come_of_sum(alloc: Global, sum: &[u8]) -> Result<(), NotationError> {
    let read = read(alloc, b"Amb", AMB);
    let answer = match &read {
        Ok(language) => come_of(alloc, &language.grammar, &language.metas, 2, sum),
        Err(_) => Err(NotationError::Memory),
    };
    drop(read);
    answer
}

/// What came of a text.
fn told(came: Result<(), NotationError>) -> Told {
    let answer = match &came {
        Ok(_) => Told::Read,
        Err(error) => refusal(error),
    };
    drop(came);
    answer
}

/// Whether the text was refused for these two readings.
fn is_ambiguous(came: Result<(), NotationError>, one: &str, other: &str) -> bool {
    let answer = match &came {
        Ok(_) => false,
        Err(error) => has_readings(error, 7, one, other),
    };
    drop(came);
    answer
}

#[test]
fn lines_are_refused(rt: HostRuntime) {
    let alloc = rt.alloc();
    let hold = [
        told(come_of_line(alloc, b"~C |- ~e ? : ~T")) == Told::BadToken(7, 9),
        told(come_of_line(alloc, b"~C |- ~x : ~T")) == Told::BadLine(7, Kind::Variable),
        told(come_of_line(alloc, b"~C |- ~e + 1 : ~T")) == Told::NoReading(7, 9),
        told(come_of_line(alloc, b"~C |- ~e :")) == Told::NoReading(7, 10),
        is_ambiguous(
            come_of_amb(alloc, b"~C |- (1 + 2 + 3) : ~T"),
            "form typing(~C,[plus(num(1),plus(num(2),num(3)))],~T)",
            "form typing(~C,[plus(plus(num(1),num(2)),num(3))],~T)",
        ),
    ];
    assert_same(&rt, &hold, &[true; 5]);
}

#[test]
fn sums_are_refused(rt: HostRuntime) {
    let alloc = rt.alloc();
    let hold = [
        told(come_of_sum(alloc, b"1 + 2")) == Told::Read,
        told(come_of_sum(alloc, b"1 +  + 2")) == Told::NoReading(7, 5),
        is_ambiguous(
            come_of_sum(alloc, b"1 + 2 + ~e"),
            "plus(num(1),plus(num(2),~e))",
            "plus(plus(num(1),num(2)),~e)",
        ),
    ];
    assert_same(&rt, &hold, &[true; 3]);
}

/// Whether the line with the number 7 states this stem of this sort.
fn states_stem(alloc: Global, line: &[u8], stem: &str, sort: &str) -> bool {
    let read = read_directive(alloc, line, 7);
    let answer = match &read {
        Ok(
            Directive::Var {
                stem: found,
                sort: of,
            },
        ) => found.as_str() == stem && of.as_str() == sort,
        _ => false,
    };
    drop(read);
    answer
}

/// What comes of the line with the number 7 as one that extends a language.
fn told_directive(alloc: Global, line: &[u8]) -> Told {
    let read = read_directive(alloc, line, 7);
    let answer = match &read {
        Ok(_) => Told::Read,
        Err(error) => refusal(error),
    };
    drop(read);
    answer
}

#[test]
fn lines_that_extend_a_language(rt: HostRuntime) {
    let hold = [
        states_stem(rt.alloc(), b"var x : id", "x", "id"),
        told_directive(rt.alloc(), b"form f :") == Told::BadLine(7, Kind::Shape),
    ];
    assert_same(&rt, &hold, &[true; 2]);
}
