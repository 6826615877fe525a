//! Languages that are read.

use crate::asserts::assert_same;
use crate::reading::{joined, read};
use std::alloc::Global;
use std::test::*;
use sx_notation::Language;
use sx_rules::{Premise, Rule};
use sx_sample::LAM_LANG;
use sx_term::{LexKind, Sort, Term};
use tests_given::languages::{AMB, LOOP, LOOP_RULES};

/// Whether the language has so many rules, each with names, and this is the number of the last
/// variable of its rule with this number.
fn has_rules(language: &Language, many: u32, rule: usize, last: u32) -> bool {
    if language.names.len() != many as usize || language.rules.rule(many).is_some() {
        return false;
    }
    match (language.names.get(rule), last.checked_add(1)) {
        (Some(names), Some(past)) => names.name(last).is_some() && names.name(past).is_none(),
        _ => false,
    }
}

/// Whether these are the variables with these numbers.
fn are_vars(terms: &[Term], one: u32, two: u32, three: u32) -> bool {
    match terms {
        [Term::Var(a), Term::Var(b), Term::Var(c)] => *a == one && *b == two && *c == three,
        _ => false,
    }
}

/// Whether the term is a node with this label and these variables as its kids.
fn is_node_of(term: Option<&Term>, label: u32, one: u32, two: u32, three: u32) -> bool {
    match term {
        Some(Term::Node { label: found, kids }) => {
            *found == label && are_vars(kids, one, two, three)
        }
        _ => false,
    }
}

/// Whether the premise says that the variables with these numbers are to be apart.
fn is_apart(premise: Option<&Premise>, one: u32, two: u32) -> bool {
    match premise {
        Some(Premise::Apart(Term::Var(a), Term::Var(b))) => *a == one && *b == two,
        _ => false,
    }
}

/// Whether the premise is a judgement of this form with these variables.
fn is_judgement(premise: Option<&Premise>, form: u32, one: u32, two: u32, three: u32) -> bool {
    match premise {
        Some(Premise::Holds(it)) => it.form == form && are_vars(&it.places, one, two, three),
        _ => false,
    }
}

/// Whether the variables of the rule are x, y, C, T1 and T2, in the order in which they stand.
fn has_vars_of_there(rule: &Rule) -> bool {
    rule.vars.as_slice()
        == [
            Sort::Lex(LexKind::Id),
            Sort::Lex(LexKind::Id),
            Sort::Plain(0),
            Sort::Plain(1),
            Sort::Plain(1),
        ]
        .as_slice()
}

/// Whether it is the rule `L-There`.
fn is_there(rule: &Rule) -> bool {
    rule.name.bytes() == b"L-There".as_slice()
        && has_vars_of_there(rule)
        && rule.premises.len() == 2
        && is_apart(rule.premises.get(0), 0, 1)
        && is_judgement(rule.premises.get(1), 1, 2, 0, 3)
        && rule.conclusion.form == 1
        && is_node_of(rule.conclusion.places.get(0), 1, 2, 1, 4)
}

/// Whether the language has twelve rules with their variables, and its environments are extended
/// by the production with the number 1.
fn is_lam(language: &Language) -> bool {
    has_rules(language, 12, 0, 2)
        && has_rules(language, 12, 1, 4)
        && has_rules(language, 12, 3, 1)
        && language.main.add == 1
}

/// Whether the second rule of the language is `L-There`.
fn says_there(language: &Language) -> bool {
    match language.rules.rule(1) {
        Some(rule) => is_there(rule),
        None => false,
    }
}

#[test]
fn a_language_is_read(rt: HostRuntime) {
    let read = read(rt.alloc(), b"Lam", LAM_LANG);
    let (is_lam, says_there) = match &read {
        Ok(language) => (is_lam(language), says_there(language)),
        Err(_) => (false, false),
    };
    drop(read);
    let hold = [is_lam, says_there];
    assert_same(&rt, &hold, &[true; 2]);
}

/// Whether the text is that of a language with two rules, of which the first has three variables
/// and the second two.
fn has_two_rules(alloc: Global, name: &[u8], bytes: &[u8]) -> bool {
    let read = read(alloc, name, bytes);
    let answer = match &read {
        Ok(language) => has_rules(language, 2, 0, 2) && has_rules(language, 2, 1, 1),
        Err(_) => false,
    };
    drop(read);
    answer
}

/// Whether it is so with these lines after the declarations of the language `Loop`.
fn has_two_rules_after(alloc: Global, more: &[u8]) -> bool {
    match joined(alloc, LOOP, more) {
        Ok(bytes) => has_two_rules(alloc, b"Loop", &bytes),
        Err(_) => false,
    }
}

#[test]
fn a_language_that_loops_is_read(rt: HostRuntime) {
    assert!(rt; has_two_rules_after(rt.alloc(), LOOP_RULES));
}

#[test]
fn a_language_whose_sums_can_be_read_in_two_ways_is_read(rt: HostRuntime) {
    assert!(rt; has_two_rules(rt.alloc(), b"Amb", AMB));
}

/// Two rules with carriage returns, blanks, a comment, and no last line feed.
const BLANKS: &[u8] = b"\t rule A\r
~C|-~e:~T\r
  ---\r
\t~C |- ~e :~T // a comment\r
end\r
 rule B
---
~C |- ~n : Int\r
 end";

#[test]
fn carriage_returns_and_blanks_in_rules(rt: HostRuntime) {
    assert!(rt; has_two_rules_after(rt.alloc(), BLANKS));
}
