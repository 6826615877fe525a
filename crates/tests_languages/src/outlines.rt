//! The outlines of language files.

use crate::asserts::assert_same;
use crate::reading::joined;
use std::alloc::Global;
use std::test::*;
use sx_outline::{MainForm, Outline, OutlineError, RuleLine, RuleLines, read_outline};
use sx_sample::LAM_LANG;
use sx_term::Text;
use tests_given::languages::{AMB, LOOP, LOOP_RULES};

/// The outline of a file of the language with this name.
fn read(alloc: Global, name: &[u8], bytes: &[u8]) -> Result<Outline, OutlineError> {
    if bytes.len() > 10_000 {
        return Err(OutlineError::Memory);
    }
    match Text::make(alloc, name) {
        Ok(name) => read_outline(alloc, &name, bytes),
        Err(_) => Err(OutlineError::Memory),
    }
}

/// How many premises the rules have together.
fn premises_of(rules: &[RuleLines]) -> usize {
    let mut many = 0usize;
    for i in 0..rules.len() {
        many = many.saturating_add(rules[i].premises.len());
    }
    many
}

/// How many sorts, productions, stems, forms, rules and premises there are.
#[derive(Clone, Copy, PartialEq)]
struct Sizes {
    sorts: usize,
    productions: usize,
    vars: usize,
    forms: usize,
    rules: usize,
    premises: usize,
}

/// How many of each the outline has.
fn sizes_of(o: &Outline) -> Sizes {
    Sizes {
        sorts: o.parts.sorts.len(),
        productions: o.parts.productions.len(),
        vars: o.vars.len(),
        forms: o.forms.len(),
        rules: o.rules.len(),
        premises: premises_of(&o.rules),
    }
}

/// How many of each a file of the language with this name has, where it has an outline.
fn sizes_read(alloc: Global, name: &[u8], bytes: &[u8]) -> Option<Sizes> {
    let read = read(alloc, name, bytes);
    let answer = match &read {
        Ok(o) => Some(sizes_of(o)),
        Err(_) => None,
    };
    drop(read);
    answer
}

/// The main form of a file of the language `Lam`, where it has an outline.
fn main_of(alloc: Global, bytes: &[u8]) -> Option<MainForm> {
    let read = read(alloc, b"Lam", bytes);
    let answer = match &read {
        Ok(o) => Some(o.main),
        Err(_) => None,
    };
    drop(read);
    answer
}

#[test]
fn what_a_language_declares(rt: HostRuntime) {
    let alloc = rt.alloc();
    let sizes = Sizes {
        sorts: 3,
        productions: 16,
        vars: 7,
        forms: 2,
        rules: 12,
        premises: 13,
    };
    let main = MainForm {
        form: 0,
        empty: 0,
        add: 1,
    };
    let hold = [
        sizes_read(alloc, b"Lam", LAM_LANG) == Some(sizes),
        main_of(alloc, LAM_LANG) == Some(main),
    ];
    assert_same(&rt, &hold, &[true; 2]);
}

/// Whether the line has this number and these bytes.
fn is_line(line: &RuleLine, number: u32, text: &[u8]) -> bool {
    line.number == number && line.text.bytes() == text
}

/// Whether it is the rule `L-There` of the language `Lam`.
fn is_there(rule: &RuleLines) -> bool {
    match rule.premises.as_slice() {
        [_, second] => {
            rule.number == 35
                && rule.name.bytes() == b"L-There".as_slice()
                && is_line(second, 37, b"~C @ ~x : ~T1")
                && is_line(&rule.conclusion, 39, b"~C , ~y : ~T2 @ ~x : ~T1")
        }
        _ => false,
    }
}

#[test]
fn the_lines_of_a_rule(rt: HostRuntime) {
    let read = read(rt.alloc(), b"Lam", LAM_LANG);
    let is_read = match &read {
        Ok(o) => match o.rules.get(1) {
            Some(rule) => o.rules.len() == 12 && is_there(rule),
            None => false,
        },
        Err(_) => false,
    };
    drop(read);
    assert!(rt; is_read);
}

/// How many of each the language `Loop` has, where it has an outline.
fn sizes_of_loop(alloc: Global) -> Option<Sizes> {
    match joined(alloc, LOOP, LOOP_RULES) {
        Ok(bytes) => sizes_read(alloc, b"Loop", &bytes),
        Err(_) => None,
    }
}

#[test]
fn other_languages(rt: HostRuntime) {
    let alloc = rt.alloc();
    let of_loop = Sizes {
        sorts: 3,
        productions: 4,
        vars: 4,
        forms: 1,
        rules: 2,
        premises: 1,
    };
    let of_amb = Sizes {
        sorts: 3,
        productions: 5,
        vars: 4,
        forms: 1,
        rules: 2,
        premises: 2,
    };
    let hold = [
        sizes_of_loop(alloc) == Some(of_loop),
        sizes_read(alloc, b"Amb", AMB) == Some(of_amb),
    ];
    assert_same(&rt, &hold, &[true; 2]);
}

/// A file with carriage returns, comments, blanks, declarations in another order, and no last line
/// feed.
const MIXED: &[u8] = b"\r
// a language\r
  language Lam\r
main f none more\r
form f : in:Env sub:Exp out:Ty\r
prod more Env 0 : Env id Ty\r
prod none Env 0 :\r
\tsort Env plain\r
sort Ty plain\r
sort Exp typed\r
\r
rule R\r
 // no premise\r
//no premise\r
a //premise\r
\r
 ---\t\r
// no conclusion\r
end\r
end";

/// Whether it is the rule of that file.
fn is_mixed(rule: &RuleLines) -> bool {
    match rule.premises.as_slice() {
        [premise] => {
            rule.number == 12
                && is_line(premise, 15, b"a //premise")
                && is_line(&rule.conclusion, 19, b"end")
        }
        _ => false,
    }
}

#[test]
fn blanks_and_comments(rt: HostRuntime) {
    let alloc = rt.alloc();
    let main = MainForm {
        form: 0,
        empty: 1,
        add: 0,
    };
    let read = read(alloc, b"Lam", MIXED);
    let is_read = match &read {
        Ok(o) => match o.rules.as_slice() {
            [rule] => is_mixed(rule),
            _ => false,
        },
        Err(_) => false,
    };
    drop(read);
    let hold = [main_of(alloc, MIXED) == Some(main), is_read];
    assert_same(&rt, &hold, &[true; 2]);
}
