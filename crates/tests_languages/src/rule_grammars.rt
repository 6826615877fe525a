//! The grammar by which rules of a language of sums are read, and the forms that its lines spell.

use crate::asserts::assert_same;
use crate::reading::read;
use std::alloc::Global;
use std::test::*;
use sx_directives::{FileKind, FormLine, Row, read_row};
use sx_grammar::{Grammar, GrammarParts};
use sx_notation::forms_of;
use sx_rules::{Form, Place};
use sx_term::{NoMemory, Role, Sort};
use tests_given::languages::SUMS;

/// The form of the row, alone.
fn form_alone(alloc: Global, row: Row) -> Result<Vec<FormLine>, NoMemory> {
    match row {
        Row::Form(form) => {
            let mut lines = Vec::new(alloc);
            lines.push(form)?;
            Ok(lines)
        }
        _ => Err(NoMemory::Memory),
    }
}

/// The form that the line spells, alone.
fn form_line(alloc: Global, line: &[u8]) -> Result<Vec<FormLine>, NoMemory> {
    match read_row(alloc, FileKind::Language, line) {
        Ok(Some(row)) => form_alone(alloc, row),
        Ok(None) => Err(NoMemory::Memory),
        Err(_) => Err(NoMemory::Memory),
    }
}

/// The label of the production with this number; empty where there is none.
fn label_at(parts: &GrammarParts, number: usize) -> &str {
    match parts.productions.get(number) {
        Some(production) => production.label.as_str(),
        None => "",
    }
}

/// Whether the parts are those of the grammar of sums, then those of the form, and then three for
/// lexemes that are apart.
fn are_rule_parts(parts: &GrammarParts) -> bool {
    parts.sorts.len() == 4
        && parts.productions.len() == 9
        && label_at(parts, 3) == "plus"
        && label_at(parts, 5) == "form typing"
        && label_at(parts, 6) == "apart id"
        && label_at(parts, 8) == "apart str"
}

/// A line of a form with a sum in brackets.
const TYPING: &[u8] = b"form typing : in:Env \"|-\" sub:Exp@51 \":\" out:Ty";

#[test]
fn the_parts_by_which_rules_are_read(rt: HostRuntime) {
    let read = read(rt.alloc(), b"Sums", SUMS);
    let is = match &read {
        Ok(language) => are_rule_parts(language.rule_grammar.parts()),
        Err(_) => false,
    };
    drop(read);
    assert!(rt; is);
}

/// Whether the places are those of an environment, a sum and a type.
fn are_places(places: &[Place]) -> bool {
    places
        == [
            Place {
                role: Role::In,
                sort: Sort::Plain(0),
            },
            Place {
                role: Role::Sub,
                sort: Sort::Typed(2),
            },
            Place {
                role: Role::Out,
                sort: Sort::Plain(1),
            },
        ]
        .as_slice()
}

/// Whether it is the form `typing` alone, with those places.
fn is_typing(forms: &[Form]) -> bool {
    match forms {
        [form] => form.name.as_str() == "typing" && are_places(&form.places),
        _ => false,
    }
}

/// What the sorts of a form's line are.
#[derive(Clone, Copy, PartialEq)]
enum Known {
    /// Sorts of the grammar, with the places that are wanted.
    Typing,
    /// Not all of them are sorts of the grammar.
    NoSort,
    /// Anything else.
    Other,
}

/// What these forms are.
fn typing_or_other(forms: &[Form]) -> Known {
    if is_typing(forms) {
        return Known::Typing;
    }
    Known::Other
}

/// What the sorts of the line are in the grammar.
fn sorts_known(alloc: Global, grammar: &Grammar, line: &[u8]) -> Known {
    match form_line(alloc, line) {
        Ok(lines) => {
            let forms = forms_of(alloc, grammar, &lines);
            drop(lines);
            let answer = match &forms {
                Ok(Some(forms)) => typing_or_other(forms),
                Ok(None) => Known::NoSort,
                Err(_) => Known::Other,
            };
            drop(forms);
            answer
        }
        Err(_) => Known::Other,
    }
}

/// The same in the grammar of sums.
fn known_in_sums(alloc: Global, line: &[u8]) -> Known {
    let read = read(alloc, b"Sums", SUMS);
    let answer = match &read {
        Ok(language) => sorts_known(alloc, &language.grammar, line),
        Err(_) => Known::Other,
    };
    drop(read);
    answer
}

#[test]
fn forms_with_their_sorts(rt: HostRuntime) {
    let alloc = rt.alloc();
    let hold = [
        known_in_sums(alloc, TYPING) == Known::Typing,
        known_in_sums(
            alloc,
            b"form typing : in:Env \"|-\" sub:Exp@51 \":\" out:Type",
        ) == Known::NoSort,
    ];
    assert_same(&rt, &hold, &[true; 2]);
}
