//! Texts that state no extension of the language `Lam`, one for each reason.

use crate::asserts::assert_same;
use crate::extensions::read;
use std::alloc::Global;
use std::test::*;
use sx_extension::{ExtensionError, PlainDefect};
use sx_lines::Kind;
use sx_notation::NotationError;
use sx_rules::RuleError;
use sx_sample::LET_EXT;
use tests_given::{Told, refusal};

/// Two rules for one production, of which the first asks for its part twice.
const SHOW_TWICE: &[u8] = b"extension Show
language Lam
prod show Exp 50 : \"show\" Exp@51
rule T-ShowInt
~C |- ~e : Int
~C |- ~e : Str
---
~C |- show ~e : Str
to itoa ~e
end
rule T-ShowStr
~C |- ~e : Str
---
~C |- show ~e : Str
to ~e
end
";

/// A plain production whose second part is dropped.
const PAIR_OF_ONE: &[u8] = b"extension Pair
language Lam
prod pair Ty 50 : \"Pair\" Ty@90 Ty@90
plain pair T1 T2
~T1 -> Str
";

/// What comes of the text.
fn told(alloc: Global, bytes: &[u8]) -> Told {
    let read = read(alloc, bytes);
    let answer = match &read {
        Ok(_) => Told::Read,
        Err(ExtensionError::Notation(error)) => refusal(error),
        Err(_) => Told::Other,
    };
    drop(read);
    answer
}

/// Whether the line with this number is bad, and this about it.
fn is_bad(alloc: Global, bytes: &[u8], line: u32, kind: Kind) -> bool {
    told(alloc, bytes) == Told::BadLine(line, kind)
}

/// The extension `Let` without its last line.
fn cut_let() -> &'static [u8] {
    match LET_EXT.strip_suffix(b"end\n") {
        Some(cut) => cut,
        None => b"",
    }
}

#[test]
fn bad_lines(rt: HostRuntime) {
    let alloc = rt.alloc();
    let other = b"language Lam\n";
    let second = b"extension X\n// of what\nuse Y\n";
    let form = b"extension X\nlanguage Lam\nform f : in:Env\n";
    let uses = b"extension X\nlanguage Lam\nuse Y\nuse Y\n";
    let stem = b"extension X\nlanguage Lam\n\nvar e : Exp\n";
    let names = b"extension X\nlanguage Lam\nprod q Ty 50 : \"Q\" Ty@90\nplain q e\nInt\n";
    let late = b"extension X\nlanguage Lam\nvar z : Exp\nuse Y\n";
    let after = b"extension X\nlanguage Lam\nrule R\n---\n~C |- 1 :\nend\nvar z : Exp\n";
    let pair = b"extension X\nlanguage Lam\nprod q Ty 90 : \"Q\"\nplain q\n// Int\n";
    let hold = [
        is_bad(alloc, other, 1, Kind::Head),
        is_bad(alloc, second, 3, Kind::Head),
        is_bad(alloc, form, 3, Kind::Directive),
        is_bad(alloc, uses, 4, Kind::Shape),
        is_bad(alloc, stem, 4, Kind::Shape),
        is_bad(alloc, names, 4, Kind::Shape),
        is_bad(alloc, late, 4, Kind::Order),
        is_bad(alloc, after, 7, Kind::Order),
        is_bad(alloc, pair, 4, Kind::Unfinished),
        is_bad(alloc, cut_let(), 4, Kind::Unfinished),
    ];
    assert_same(&rt, &hold, &[true; 10]);
}

#[test]
fn bad_texts_of_lines(rt: HostRuntime) {
    let alloc = rt.alloc();
    let part = b"extension X\nlanguage Lam\nprod q Ty 90 : \"Q\"\nplain q\n~T\n";
    let apart = b"extension X\nlanguage Lam\nrule R\n---\n~x != ~y\nend\n";
    let stem = b"extension X\nlanguage Lam\nrule R\n~C |- ~z : Int\n---\n~C |- 1 : Int\nend\n";
    let token = b"extension X\nlanguage Lam\nrule R\n---\n~C |- 1 : Int\nto ;\nend\n";
    let sort = b"extension X\nlanguage Lam\nrule R\n---\n~C |- 1 : Int\nto Int\nend\n";
    let hold = [
        told(alloc, b"extension \xff") == Told::NotUtf8(10),
        is_bad(alloc, part, 5, Kind::Variable),
        is_bad(alloc, apart, 5, Kind::Shape),
        is_bad(alloc, stem, 4, Kind::Variable),
        told(alloc, token) == Told::BadToken(6, 3),
        told(alloc, sort) == Told::NoReading(6, 3),
    ];
    assert_same(&rt, &hold, &[true; 6]);
}

/// Whether the premise with this number of the rule breaks this part of the discipline.
fn breaks(error: &ExtensionError, rule: &str, part: u8, premise: usize) -> bool {
    match error {
        ExtensionError::Notation(
            NotationError::Rules {
                error: RuleError::Discipline(name, found, at),
                variable: None,
            },
        ) => name.as_str() == rule && *found == part && *at == premise,
        _ => false,
    }
}

/// Whether the plain body of the production drops its part with this name.
fn drops(error: &ExtensionError, production: &str, part: &str) -> bool {
    match error {
        ExtensionError::Plain(label, PlainDefect::Drops(name)) => {
            label.as_str() == production && name.as_str() == part
        }
        _ => false,
    }
}

#[test]
fn a_premise_and_a_part(rt: HostRuntime) {
    let alloc = rt.alloc();
    let show = read(alloc, SHOW_TWICE);
    let breaks = match &show {
        Ok(_) => false,
        Err(error) => breaks(error, "T-ShowInt", 3, 2),
    };
    drop(show);
    let pair = read(alloc, PAIR_OF_ONE);
    let drops = match &pair {
        Ok(_) => false,
        Err(error) => drops(error, "pair", "T2"),
    };
    drop(pair);
    assert_same(&rt, &[breaks, drops], &[true; 2]);
}

/// Why a plain table or a body is refused.
#[derive(Clone, Copy, PartialEq)]
enum Why {
    Twice,
    UsesLater,
    NoPlain,
    NoBody,
    BodySort,
    BodyExtended,
    Other,
}

/// Why, where what is told of is the production or the rule with this name.
fn reason_of(error: &ExtensionError, name: &str) -> Why {
    let (text, why) = match error {
        ExtensionError::Plain(label, PlainDefect::Twice) => (label, Why::Twice),
        ExtensionError::Plain(label, PlainDefect::UsesLater(_)) => (label, Why::UsesLater),
        ExtensionError::NoPlain(label) => (label, Why::NoPlain),
        ExtensionError::NoBody(rule) => (rule, Why::NoBody),
        ExtensionError::BodySort(rule) => (rule, Why::BodySort),
        ExtensionError::BodyExtended(rule) => (rule, Why::BodyExtended),
        _ => return Why::Other,
    };
    if text.as_str() == name {
        why
    } else {
        Why::Other
    }
}

/// Why the text is refused, which is told of the production or the rule with this name.
fn refused(alloc: Global, bytes: &[u8], name: &str) -> Why {
    let read = read(alloc, bytes);
    let answer = match &read {
        Ok(_) => Why::Other,
        Err(error) => reason_of(error, name),
    };
    drop(read);
    answer
}

/// A plain production without a body, and one whose body uses it.
const LATER: &[u8] = b"extension X
language Lam
prod q Ty 90 : \"Q\"
prod r Ty 90 : \"R\"
plain r
Q
";

/// A plain production without a body, and a rule without one.
const BARE: &[u8] = b"extension X
language Lam
prod q Ty 90 : \"Q\"
rule R
---
~C |- 1 : Int
end
";

/// A rule whose body has the extension's own syntax.
const OWN: &[u8] = b"extension X
language Lam
prod x Exp 50 : \"x\" Exp@51
rule R
~C |- ~e : Int
---
~C |- x ~e : Int
to x ~e
end
";

#[test]
fn plain_tables_and_bodies(rt: HostRuntime) {
    let alloc = rt.alloc();
    let twice = b"extension X\nlanguage Lam\nprod q Ty 90 : \"Q\"\nplain q\nInt\nplain q\nInt\n";
    let none = b"extension X\nlanguage Lam\nrule R\n---\n~C |- 1 : Int\nend\n";
    let some = b"extension X\nlanguage Lam\nrule R\n---\n~C , ~x : ~T @ ~x : ~T\nto ;\nend\n";
    let hold = [
        refused(alloc, twice, "q") == Why::Twice,
        refused(alloc, LATER, "r") == Why::UsesLater,
        refused(alloc, BARE, "q") == Why::NoPlain,
        refused(alloc, none, "R") == Why::NoBody,
        refused(alloc, some, "R") == Why::BodySort,
        refused(alloc, OWN, "R") == Why::BodyExtended,
    ];
    assert_same(&rt, &hold, &[true; 6]);
}
