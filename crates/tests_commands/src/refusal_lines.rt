//! The lines that name refusals.

use crate::asserts::assert_same;
use std::alloc::Global;
use sx_term::Text;
use sx_words::{
    ClosureDefect, Defect, FileDefect, GoalDefect, Position, PrintDefect, PrintedPart, Refusal,
    RuleDefect, TextDefect, write_line, write_refusal,
};

/// The text of the bytes, unless memory is lacking.
fn text(alloc: Global, bytes: &[u8]) -> Option<Text> {
    match Text::make(alloc, bytes) {
        Ok(text) => Some(text),
        Err(_) => None,
    }
}

/// Appends the line of the refusal about `M.mod`, and answers whether memory was there for it.
fn put_line(alloc: Global, refusal: &Refusal, line: &mut Vec<u8>) -> bool {
    match Text::make(alloc, b"M.mod") {
        Ok(file) => {
            let is = write_refusal(alloc, &file, refusal, line).is_ok();
            drop(file);
            is
        }
        Err(_) => false,
    }
}

/// Whether this is the line of the refusal about `M.mod`.
fn is_line(alloc: Global, refusal: &Refusal, want: &[u8]) -> bool {
    let mut line = Vec::new(alloc);
    let is = put_line(alloc, refusal, &mut line) && line.as_slice() == want;
    drop(line);
    is
}

/// The same for what is put together here.
fn has_line(alloc: Global, place: Position, defect: Defect, want: &[u8]) -> bool {
    let refusal = Refusal { place, defect };
    let is = is_line(alloc, &refusal, want);
    drop(refusal);
    is
}

/// Appends this line about this file, and answers whether memory was there for it.
fn put_said(alloc: Global, file: &Text, line: &mut Vec<u8>) -> bool {
    match Text::make(alloc, b"word 2") {
        Ok(said) => {
            let is = write_line(alloc, file, &said, line).is_ok();
            drop(said);
            is
        }
        Err(_) => false,
    }
}

#[test]
fn a_line(rt: HostRuntime) {
    let alloc = rt.alloc();
    let mut line = Vec::new(alloc);
    let is = match Text::make(alloc, b"words") {
        Ok(file) => {
            let is = put_said(alloc, &file, &mut line);
            drop(file);
            is
        }
        Err(_) => false,
    };
    let is_said = is && line.as_slice() == b"soundx: words: word 2\n".as_slice();
    drop(line);
    assert!(rt; is_said);
}

#[test]
fn lines_with_places(rt: HostRuntime) {
    let alloc = rt.alloc();
    let spot = Position::Spot { line: 3, column: 7 };
    let token = Defect::Text(TextDefect::BadToken);
    let at = b"soundx: M.mod: line 3 column 7: bad token\n";
    let absent = Defect::File(FileDefect::Absent);
    let header = Defect::File(FileDefect::Header);
    let line = b"soundx: M.mod: line 4: bad header\n";
    let hold = [
        has_line(alloc, spot, token, at),
        has_line(alloc, Position::Nowhere, absent, b"soundx: M.mod: absent\n"),
        has_line(alloc, Position::Line(4), header, line),
    ];
    assert_same(&rt, &hold, &[true; 3]);
}

#[test]
fn a_line_of_a_rule(rt: HostRuntime) {
    let alloc = rt.alloc();
    let want = b"soundx: M.mod: rule T-App: ~t is not bound\n";
    let is = match text(alloc, b"T-App") {
        Some(rule) => match text(alloc, b"~t") {
            Some(name) => {
                let defect = Defect::Rule(RuleDefect::NotModed(name));
                has_line(alloc, Position::Rule(rule), defect, want)
            }
            None => {
                drop(rule);
                false
            }
        },
        None => false,
    };
    assert!(rt; is);
}

#[test]
fn a_line_of_a_goal(rt: HostRuntime) {
    let alloc = rt.alloc();
    let want = b"soundx: M.mod: x : int is not what premise 2 of T-If asks for\n";
    let is = match text(alloc, b"x : int") {
        Some(goal) => match text(alloc, b"T-If") {
            Some(rule) => {
                let defect = Defect::Goal(GoalDefect::Mismatch {
                    goal,
                    premise: 2,
                    rule,
                });
                has_line(alloc, Position::Nowhere, defect, want)
            }
            None => {
                drop(goal);
                false
            }
        },
        None => false,
    };
    assert!(rt; is);
}

#[test]
fn a_line_of_a_print(rt: HostRuntime) {
    let defect = Defect::Print {
        part: PrintedPart::Signature,
        defect: PrintDefect::Depth(1001),
    };
    let want = b"soundx: M.mod: printed signature has depth 1001, over 1000\n";
    assert!(rt; has_line(rt.alloc(), Position::Nowhere, defect, want));
}

#[test]
fn a_line_of_a_stated_print(rt: HostRuntime) {
    let defect = Defect::Print {
        part: PrintedPart::Stated,
        defect: PrintDefect::Bytes(262_145),
    };
    let want = b"soundx: M.mod: printed stated signature has 262145 bytes, over 262144\n";
    assert!(rt; has_line(rt.alloc(), Position::Nowhere, defect, want));
}

/// Appends the name, and answers whether memory was there for it.
fn put_name(alloc: Global, name: &[u8], names: &mut Vec<Text>) -> bool {
    match Text::make(alloc, name) {
        Ok(name) => names.push(name).is_ok(),
        Err(_) => false,
    }
}

#[test]
fn a_line_of_a_cycle(rt: HostRuntime) {
    let alloc = rt.alloc();
    let mut names = Vec::new(alloc);
    let are = put_name(alloc, b"A", &mut names) && put_name(alloc, b"A", &mut names);
    let defect = Defect::Closure(ClosureDefect::Cycle(names));
    let is = has_line(
        alloc,
        Position::Nowhere,
        defect,
        b"soundx: M.mod: cycle A A\n",
    );
    assert!(rt; are && is);
}
