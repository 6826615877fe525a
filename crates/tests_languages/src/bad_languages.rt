//! Texts that state no language, one for each reason.

use crate::asserts::assert_same;
use crate::reading::{has_readings, joined, read};
use std::alloc::Global;
use std::test::*;
use sx_grammar::GrammarError;
use sx_lines::Kind;
use sx_notation::{Language, NotationError};
use sx_rules::RuleError;
use tests_given::languages::{AMB, LOOP};
use tests_given::{Told, refusal};

/// What comes of the text of a language with this name.
fn told(alloc: Global, name: &[u8], bytes: &[u8]) -> Told {
    let read = read(alloc, name, bytes);
    let answer = match &read {
        Ok(_) => Told::Read,
        Err(error) => refusal(error),
    };
    drop(read);
    answer
}

/// The language with these lines after the declarations of the language `Loop`.
fn read_after(alloc: Global, more: &[u8]) -> Result<Language, NotationError> {
    match joined(alloc, LOOP, more) {
        Ok(bytes) => read(alloc, b"Loop", &bytes),
        Err(_) => Err(NotationError::Memory),
    }
}

/// What comes of these lines after those declarations.
fn told_after(alloc: Global, more: &[u8]) -> Told {
    let read = read_after(alloc, more);
    let answer = match &read {
        Ok(_) => Told::Read,
        Err(error) => refusal(error),
    };
    drop(read);
    answer
}

#[test]
fn not_utf8(rt: HostRuntime) {
    assert!(rt; told(rt.alloc(), b"Loop", b"language \xff") == Told::NotUtf8(9));
}

#[test]
fn a_bad_line(rt: HostRuntime) {
    assert!(rt; told(rt.alloc(), b"Other", LOOP) == Told::BadLine(1, Kind::Head));
}

/// Rules of which the second has the name of the first.
const SAME_RULE: &[u8] = b"rule A
---
~C |- ~n : Int
end
rule A
---
~C |- ~n : Int
end
";

/// The same, where the conclusion of the second is no judgement.
const SAME_RULE_WITH_A_BAD_LINE: &[u8] = b"rule A
---
~C |- ~n : Int
end
rule A
---
~n1 != ~n2
end
";

#[test]
fn bad_lines_of_rules(rt: HostRuntime) {
    let alloc = rt.alloc();
    let hold = [
        told_after(alloc, b"rule A\n---\n~n1 != ~n2\nend\n") == Told::BadLine(17, Kind::Shape),
        told_after(alloc, b"rule A\n~C |- ~x : ~T\n---\n~C |- ~e : ~T\nend\n")
            == Told::BadLine(16, Kind::Variable),
        told_after(alloc, b"rule A\n---\n~C |- ; : ~T\nend\n") == Told::BadToken(17, 6),
        told_after(alloc, b"rule A\n---\n~C |- ~T : ~T\nend\n") == Told::NoReading(17, 6),
        told_after(alloc, SAME_RULE_WITH_A_BAD_LINE) == Told::BadLine(21, Kind::Shape),
    ];
    assert_same(&rt, &hold, &[true; 5]);
}

/// Whether the line 28 of the language `Amb` with one more rule has two readings.
fn is_read_in_two_ways(alloc: Global, bytes: &[u8]) -> bool {
    let read = read(alloc, b"Amb", bytes);
    let answer = match &read {
        Ok(_) => false,
        Err(error) => has_readings(
            error,
            28,
            "form typing(~C,plus(num(1),plus(num(2),num(3))),int)",
            "form typing(~C,plus(plus(num(1),num(2)),num(3)),int)",
        ),
    };
    drop(read);
    answer
}

#[test]
fn a_line_with_two_readings(rt: HostRuntime) {
    let alloc = rt.alloc();
    let is = match joined(alloc, AMB, b"rule A\n---\n~C |- 1 + 2 + 3 : Int\nend\n") {
        Ok(bytes) => is_read_in_two_ways(alloc, &bytes),
        Err(_) => false,
    };
    assert!(rt; is);
}

/// Whether a text is refused since this sort is not known.
fn is_unknown(error: &NotationError, name: &[u8]) -> bool {
    match error {
        NotationError::Grammar(GrammarError::UnknownSort(sort)) => sort.bytes() == name,
        _ => false,
    }
}

#[test]
fn no_grammar(rt: HostRuntime) {
    let read = read_after(rt.alloc(), b"form other : in:Nothing \"@\"\n");
    let is = match &read {
        Ok(_) => false,
        Err(error) => is_unknown(error, b"Nothing"),
    };
    drop(read);
    assert!(rt; is);
}

/// Whether a text is refused since this variable of this rule is not bound.
fn is_unbound(error: &NotationError, rule: &[u8], name: &[u8]) -> bool {
    match error {
        NotationError::Rules {
            error: RuleError::NotModed(found, _),
            variable: Some(text),
        } => found.bytes() == rule && text.bytes() == name,
        _ => false,
    }
}

#[test]
fn a_variable_that_is_not_bound(rt: HostRuntime) {
    let read = read_after(rt.alloc(), b"rule A\n---\n~C |- ~n : ~T7\nend\n");
    let is = match &read {
        Ok(_) => false,
        Err(error) => is_unbound(error, b"A", b"T7"),
    };
    drop(read);
    assert!(rt; is);
}

/// Whether a text is refused since this rule stands twice.
fn stands_twice(error: &NotationError, rule: &[u8]) -> bool {
    match error {
        NotationError::Rules {
            error: RuleError::SameRule(found),
            variable: None,
        } => found.bytes() == rule,
        _ => false,
    }
}

#[test]
fn a_rule_that_stands_twice(rt: HostRuntime) {
    let read = read_after(rt.alloc(), SAME_RULE);
    let is = match &read {
        Ok(_) => false,
        Err(error) => stands_twice(error, b"A"),
    };
    drop(read);
    assert!(rt; is);
}
