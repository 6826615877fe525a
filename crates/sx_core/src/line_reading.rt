//! Reading one line of a core file.

ghost use Rattle.sx_core.specs.Table.{IsKeyword};
ghost use Rattle.sx_core.specs.Reading.{context, AreNamesFound, IsLineAnswer};
ghost use Rattle.sx_core.specs.declared.keyword.Keyword.TheVariants as keyword;

use crate::found::Found;
use crate::keyword::{Keyword, split_keyword};
use crate::line_read::LineRead;
use crate::resolved::{make_con, make_form};
use crate::row_reading::{read_con, read_form, read_sort};
use crate::statements::{read_goal, read_judgement};
use crate::terms_row::{RowError, read_pair};
use crate::words::{read_name, read_names};
use std::alloc::Global;

/// The first line, after its first word.
fn head_line(found: &Found, text: &[u8], rest: &[u8]) -> Result<LineRead, RowError>
    requires { IsKeyword text.now keyword.Head rest.now }
    ensures { IsLineAnswer (context found.now) text.now result }
{
    if rest == b" 1".as_slice() {
        return Ok(LineRead::Head);
    }
    Err(RowError::Shape)
}

/// The line of a sort, after its first word.
fn sort_line(alloc: Global, found: &Found, text: &[u8], rest: &[u8]) -> Result<LineRead, RowError>
    requires found { AreNamesFound found.now }
    requires line { IsKeyword text.now keyword.Sort rest.now }
    ensures { IsLineAnswer (context found.now) text.now result }
{
    match read_sort(alloc, rest) {
        Ok(row) => {
            if found.taken.has(row.name.bytes()) {
                return Err(RowError::Shape);
            }
            Ok(LineRead::Sort(row))
        }
        Err(e) => Err(e),
    }
}

/// The line of a constructor, after its first word.
fn con_line(alloc: Global, found: &Found, text: &[u8], rest: &[u8]) -> Result<LineRead, RowError>
    requires found { AreNamesFound found.now }
    requires line { IsKeyword text.now keyword.Con rest.now }
    ensures { IsLineAnswer (context found.now) text.now result }
{
    match read_con(alloc, rest) {
        Ok(row) => {
            if found.con_names.has(row.name.bytes()) {
                drop(row);
                return Err(RowError::Shape);
            }
            match make_con(alloc, &found.sorts, &row) {
                Ok(con) => Ok(LineRead::Con(row, con)),
                Err(e) => {
                    drop(row);
                    Err(e)
                }
            }
        }
        Err(e) => Err(e),
    }
}

/// The line of a form, after its first word.
fn form_line(alloc: Global, found: &Found, text: &[u8], rest: &[u8]) -> Result<LineRead, RowError>
    requires found { AreNamesFound found.now }
    requires line { IsKeyword text.now keyword.Form rest.now }
    ensures { IsLineAnswer (context found.now) text.now result }
{
    match read_form(alloc, rest) {
        Ok(row) => {
            if found.forms.names.has(row.name.bytes()) {
                drop(row);
                return Err(RowError::Shape);
            }
            let made = make_form(alloc, &found.sorts, &row);
            drop(row);
            match made {
                Ok(form) => Ok(LineRead::Form(form)),
                Err(e) => Err(e),
            }
        }
        Err(e) => Err(e),
    }
}

/// The line that begins a rule, after its first word.
fn rule_line(alloc: Global, found: &Found, text: &[u8], rest: &[u8]) -> Result<LineRead, RowError>
    requires found { AreNamesFound found.now }
    requires line { IsKeyword text.now keyword.Rule rest.now }
    ensures { IsLineAnswer (context found.now) text.now result }
{
    match read_name(alloc, rest) {
        Ok((name, more)) => match read_names(alloc, more) {
            Ok(names) => match found.sorts.sorts(alloc, &names) {
                Ok(sorts) => Ok(LineRead::Rule(name, sorts)),
                Err(e) => Err(e),
            },
            Err(e) => Err(e),
        },
        Err(e) => Err(e),
    }
}

/// The line of a judgement premise, after its first word.
fn if_line(alloc: Global, found: &Found, text: &[u8], rest: &[u8]) -> Result<LineRead, RowError>
    requires found { AreNamesFound found.now }
    requires line { IsKeyword text.now keyword.If rest.now }
    ensures { IsLineAnswer (context found.now) text.now result }
{
    match read_judgement(alloc, &found.forms, rest) {
        Ok(judgement) => Ok(LineRead::If(judgement)),
        Err(e) => Err(e),
    }
}

/// The line of two terms that are to be apart, after its first word.
fn not_line(alloc: Global, found: &Found, text: &[u8], rest: &[u8]) -> Result<LineRead, RowError>
    requires found { AreNamesFound found.now }
    requires line { IsKeyword text.now keyword.Not rest.now }
    ensures { IsLineAnswer (context found.now) text.now result }
{
    match read_pair(alloc, rest) {
        Ok((left, right)) => Ok(LineRead::Not(left, right)),
        Err(e) => Err(e),
    }
}

/// The line of a conclusion, after its first word.
fn then_line(alloc: Global, found: &Found, text: &[u8], rest: &[u8]) -> Result<LineRead, RowError>
    requires found { AreNamesFound found.now }
    requires line { IsKeyword text.now keyword.Then rest.now }
    ensures { IsLineAnswer (context found.now) text.now result }
{
    match read_judgement(alloc, &found.forms, rest) {
        Ok(judgement) => Ok(LineRead::Then(judgement)),
        Err(e) => Err(e),
    }
}

/// The line that ends a rule, after its first word.
fn end_line(found: &Found, text: &[u8], rest: &[u8]) -> Result<LineRead, RowError>
    requires { IsKeyword text.now keyword.End rest.now }
    ensures { IsLineAnswer (context found.now) text.now result }
{
    if rest.is_empty() {
        return Ok(LineRead::End);
    }
    Err(RowError::Shape)
}

/// The line of the goal, after its first word.
fn goal_line(alloc: Global, found: &Found, text: &[u8], rest: &[u8]) -> Result<LineRead, RowError>
    requires found { AreNamesFound found.now }
    requires line { IsKeyword text.now keyword.Goal rest.now }
    ensures { IsLineAnswer (context found.now) text.now result }
{
    match read_goal(alloc, &found.forms, &found.shapes, rest) {
        Ok(goal) => Ok(LineRead::Goal(goal)),
        Err(e) => Err(e),
    }
}

/// What the line states whose first word is this.
pub(crate) fn read_line(
    alloc: Global,
    found: &Found,
    keyword: Keyword,
    text: &[u8],
    rest: &[u8],
) -> Result<LineRead, RowError>
    requires found { AreNamesFound found.now }
    requires line { IsKeyword text.now keyword rest.now }
    ensures { IsLineAnswer (context found.now) text.now result }
{
    match keyword {
        Keyword::Head => head_line(found, text, rest),
        Keyword::Sort => sort_line(alloc, found, text, rest),
        Keyword::Con => con_line(alloc, found, text, rest),
        Keyword::Form => form_line(alloc, found, text, rest),
        Keyword::Rule => rule_line(alloc, found, text, rest),
        Keyword::If => if_line(alloc, found, text, rest),
        Keyword::Not => not_line(alloc, found, text, rest),
        Keyword::Then => then_line(alloc, found, text, rest),
        Keyword::End => end_line(found, text, rest),
        Keyword::Goal => goal_line(alloc, found, text, rest),
    }
}
