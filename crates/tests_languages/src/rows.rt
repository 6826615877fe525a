//! Lines of language and extension files that are read, and lines that are refused.

use crate::asserts::assert_same;
use std::alloc::Global;
use std::test::*;
use sx_directives::{
    Directive, FileKind, FormLine, FormSymbol, PlainLine, Row, RowError, SpelledSort, lexical_kind,
    read_directive_row, read_row,
};
use sx_grammar::{Production, SortLine, Symbol};
use sx_term::{LexKind, Role};

/// What comes of a line.
#[derive(Clone, Copy, PartialEq)]
enum Told {
    /// It is read.
    Row,
    /// It begins with no word of the table.
    NoRow,
    /// It begins with a word of the table, and its parts are not as stated.
    BadShape,
    /// Memory is lacking.
    Memory,
}

/// What comes of the line in a file of this kind.
fn reading(alloc: Global, kind: FileKind, line: &[u8]) -> Told {
    let read = read_row(alloc, kind, line);
    let answer = match &read {
        Ok(Some(_)) => Told::Row,
        Ok(None) => Told::NoRow,
        Err(RowError::Shape) => Told::BadShape,
        Err(RowError::Memory) => Told::Memory,
    };
    drop(read);
    answer
}

/// Whether the line of a language file begins with a word of the table, and its parts are not as
/// stated.
fn is_bad(rt: &HostRuntime, line: &[u8]) -> bool {
    reading(rt.alloc(), FileKind::Language, line) == Told::BadShape
}

/// Whether the line of a language file is read.
fn is_row(rt: &HostRuntime, line: &[u8]) -> bool {
    reading(rt.alloc(), FileKind::Language, line) == Told::Row
}

/// Whether the line of a language file begins with no word of the table.
fn is_no_row(rt: &HostRuntime, line: &[u8]) -> bool {
    reading(rt.alloc(), FileKind::Language, line) == Told::NoRow
}

/// Whether the line of an extension file begins with a word of the table, and its parts are not as
/// stated.
fn is_bad_in_extension(rt: &HostRuntime, line: &[u8]) -> bool {
    reading(rt.alloc(), FileKind::Extension, line) == Told::BadShape
}

/// Whether the line of an extension file is read.
fn is_row_in_extension(rt: &HostRuntime, line: &[u8]) -> bool {
    reading(rt.alloc(), FileKind::Extension, line) == Told::Row
}

/// Whether the line of an extension file begins with no word of the table.
fn is_no_row_in_extension(rt: &HostRuntime, line: &[u8]) -> bool {
    reading(rt.alloc(), FileKind::Extension, line) == Told::NoRow
}

/// Whether the symbols are two parts with a literal, an identifier and one more part between them.
fn are_of_bind(symbols: &[Symbol]) -> bool {
    match symbols {
        [
            Symbol::Part { sort: _, least: 10 },
            Symbol::Lit(text),
            Symbol::Lex(LexKind::Id),
            Symbol::Part { sort: _, least: 5 },
            Symbol::Part { sort: _, least: 0 },
        ] => text.bytes() == b":".as_slice(),
        _ => false,
    }
}

/// Whether it is the production `bind` of the sort `Env` and the level 10.
fn is_bind(p: &Production) -> bool {
    p.label.bytes() == b"bind".as_slice()
        && p.sort.bytes() == b"Env".as_slice()
        && p.level == 10
        && are_of_bind(&p.symbols)
}

#[test]
fn a_production(rt: HostRuntime) {
    let line = b"  prod bind  Env 10 : Env@10 \":\" id id@5 Ty\t\r".as_slice();
    let read = read_row(rt.alloc(), FileKind::Language, line);
    let is_read = match &read {
        Ok(Some(Row::Prod(p))) => is_bind(p),
        _ => false,
    };
    drop(read);
    assert!(rt; is_read);
}

/// Whether the sort is typed and has round brackets.
fn is_in_brackets(s: &SortLine) -> bool {
    match &s.brackets {
        Some((left, right)) => {
            s.typed && left.bytes() == b"(".as_slice() && right.bytes() == b")".as_slice()
        }
        None => false,
    }
}

#[test]
fn a_sort_with_brackets(rt: HostRuntime) {
    let line = b"sort Exp typed \"(\" \")\"".as_slice();
    let read = read_row(rt.alloc(), FileKind::Language, line);
    let is_read = match &read {
        Ok(Some(Row::Sort(s))) => is_in_brackets(s),
        _ => false,
    };
    drop(read);
    assert!(rt; is_read);
}

/// Whether the symbol is a subject of the sort `Exp` with the least level 2.
fn is_subject(symbol: &FormSymbol) -> bool {
    match symbol {
        FormSymbol::Place {
            role: Role::Sub,
            sort: SpelledSort::Named { sort, least: 2 },
        } => sort.bytes() == b"Exp".as_slice(),
        _ => false,
    }
}

/// Whether the form has five symbols, of which the third is that subject and the last an
/// identifier as an output.
fn is_typing(form: &FormLine) -> bool {
    match form.symbols.as_slice() {
        [
            _,
            _,
            subject,
            _,
            FormSymbol::Place {
                role: Role::Out,
                sort: SpelledSort::Lex(LexKind::Id),
            },
        ] => is_subject(subject),
        _ => false,
    }
}

#[test]
fn a_form(rt: HostRuntime) {
    let line = b"form typing : in:Env \"|-\" sub:Exp@2 \":\" out:id".as_slice();
    let read = read_row(rt.alloc(), FileKind::Language, line);
    let is_read = match &read {
        Ok(Some(Row::Form(form))) => is_typing(form),
        _ => false,
    };
    drop(read);
    assert!(rt; is_read);
}

#[test]
fn other_rows(rt: HostRuntime) {
    let hold = [
        is_row(&rt, b"language Lam"),
        is_row(&rt, b"main typing nilenv bind"),
        is_row(&rt, b"rule T-Var\r"),
        is_row(&rt, b" --- "),
        is_row(&rt, b"end"),
        is_no_row(&rt, b""),
        is_no_row(&rt, b"sorts Exp typed"),
        is_no_row(&rt, b"use Let"),
        is_no_row(&rt, b"extension Let"),
        is_no_row(&rt, b"plain let x e"),
        is_no_row(&rt, b"to (~x)"),
    ];
    assert_same(&rt, &hold, &[true; 11]);
}

#[test]
fn rows_of_extensions(rt: HostRuntime) {
    let hold = [
        is_row_in_extension(&rt, b"extension Let"),
        is_row_in_extension(&rt, b"language Lam-2"),
        is_row_in_extension(&rt, b" use  Let\t"),
        is_row_in_extension(&rt, b"prod let Exp 0 : id"),
        is_row_in_extension(&rt, b"plain none"),
        is_row_in_extension(&rt, b"to "),
        is_no_row_in_extension(&rt, b"to"),
        is_no_row_in_extension(&rt, b"sort Exp typed"),
        is_no_row_in_extension(&rt, b"form f :"),
        is_no_row_in_extension(&rt, b"main f a b"),
        is_bad_in_extension(&rt, b"use Lam-2"),
        is_bad_in_extension(&rt, b"use Let Let"),
        is_bad_in_extension(&rt, b"extension Lam-2"),
        is_bad_in_extension(&rt, b"plain"),
        is_bad_in_extension(&rt, b"plain let 12"),
    ];
    assert_same(&rt, &hold, &[true; 15]);
}

/// Whether it is a plain line for `let` with the variables `x` and `e1`.
fn is_plain_let(plain: &PlainLine) -> bool {
    match plain.names.as_slice() {
        [first, second] => {
            plain.label.bytes() == b"let".as_slice()
                && first.bytes() == b"x".as_slice()
                && second.bytes() == b"e1".as_slice()
        }
        _ => false,
    }
}

#[test]
fn a_plain_line(rt: HostRuntime) {
    let read = read_row(rt.alloc(), FileKind::Extension, b"plain let x e1");
    let is_read = match &read {
        Ok(Some(Row::Plain(plain))) => is_plain_let(plain),
        _ => false,
    };
    drop(read);
    assert!(rt; is_read);
}

#[test]
fn a_body(rt: HostRuntime) {
    let read = read_row(rt.alloc(), FileKind::Extension, b"\tto  ~e // a");
    let is_read = match &read {
        Ok(Some(Row::To(body))) => body.bytes() == b"     ~e // a".as_slice(),
        _ => false,
    };
    drop(read);
    assert!(rt; is_read);
}

#[test]
fn bad_rows(rt: HostRuntime) {
    let hold = [
        is_bad(&rt, b"language"),
        is_bad(&rt, b"sort Exp typed \"(\""),
        is_bad(&rt, b"sort 1Exp typed"),
        is_bad(&rt, b"prod a Exp 100 :"),
        is_bad(&rt, b"prod a Exp 05 :"),
        is_bad(&rt, b"prod a Exp 5 : Exp@100"),
        is_bad(&rt, b"prod a Exp 5 \"a\""),
        is_bad(&rt, b"prod a Exp 5 : \"a\"b\""),
        is_bad(&rt, b"var x1 : Exp"),
        is_bad(&rt, b"var x : Exp@5"),
        is_bad(&rt, b"form f : Exp"),
        is_bad(&rt, b"--- end"),
    ];
    assert_same(&rt, &hold, &[true; 12]);
}

#[test]
fn lexical_sorts(rt: HostRuntime) {
    let hold = [
        is_bad(&rt, b"sort id plain"),
        is_bad(&rt, b"sort num typed"),
        is_bad(&rt, b"sort str plain \"(\" \")\""),
        is_row(&rt, b"sort ids plain"),
    ];
    assert_same(&rt, &hold, &[true; 4]);
}

#[test]
fn lexical_kinds(rt: HostRuntime) {
    let hold = [
        matches!(lexical_kind(b"num"), Some(LexKind::Num)),
        lexical_kind(b"nu").is_none(),
    ];
    assert_same(&rt, &hold, &[true; 2]);
}

/// Whether the line is a `prod` line.
fn is_prod(rt: &HostRuntime, line: &[u8]) -> bool {
    let read = read_directive_row(rt.alloc(), line);
    let answer = match &read {
        Ok(Directive::Prod(_)) => true,
        _ => false,
    };
    drop(read);
    answer
}

/// Whether the line is no directive.
fn is_no_directive(rt: &HostRuntime, line: &[u8]) -> bool {
    let read = read_directive_row(rt.alloc(), line);
    let answer = match &read {
        Err(RowError::Shape) => true,
        _ => false,
    };
    drop(read);
    answer
}

#[test]
fn other_directives(rt: HostRuntime) {
    let hold = [
        is_prod(&rt, b"prod a Exp 5 :"),
        is_no_directive(&rt, b"form f :"),
        is_no_directive(&rt, b"sorts Exp typed"),
    ];
    assert_same(&rt, &hold, &[true; 3]);
}

#[test]
fn a_directive(rt: HostRuntime) {
    let read = read_directive_row(rt.alloc(), b"var e : Exp");
    let is_read = match &read {
        Ok(Directive::Var { stem, sort }) => {
            stem.bytes() == b"e".as_slice() && sort.bytes() == b"Exp".as_slice()
        }
        _ => false,
    };
    drop(read);
    assert!(rt; is_read);
}
