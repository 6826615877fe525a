//! Reading one line without a grammar.

ghost use Rattle.std.specs.Prelude.{◌≡◌, ◌↔◌, IsTrue, List, ℕ, [], ◌∷◌, MatchOption, MatchResult};
ghost use Rattle.sx_grammar.specs.Parts.{texts};
ghost use Rattle.sx_directives.specs.Spelling.{NoneIs};
ghost use Rattle.sx_directives.specs.Rows.{keyword_text, IsDirective, IsDirectiveOf, IsLineOf};
ghost use Rattle.sx_directives.specs.Rows.{IsRowOf, IsRowRead};
ghost use Rattle.sx_directives.specs.declared.keyword.Keyword.{Keyword as KeywordOf};

use crate::body::{body_of, has_body};
use crate::directive::Directive;
use crate::file_kind::FileKind;
use crate::keyword::{Keyword, is_word_of, keyword_of};
use crate::parts::split_parts;
use crate::row::Row;
use crate::row_error::RowError;
use crate::row_reading::{
    read_form, read_main, read_module_name, read_name, read_plain, read_prod, read_sort, read_var,
};
use std::alloc::Global;

/// The word that begins the line with these parts, and the parts after it.
pub(crate) fn split_keyword<'a, 'b>(parts: &'b [&'a [u8]]) -> Option<(Keyword, &'b [&'a [u8]])>
    ensures { MatchOption result ((k : KeywordOf) (rest : List (List ℕ)) →
        texts parts.entry.now ≡ keyword_text k ∷ rest → ⊥)
        (λ x. texts parts.entry.now ≡ keyword_text x.0 ∷ texts x.1.now) }
{
    match parts {
        [word, rest @ ..] => match keyword_of(*word) {
            Some(keyword) => Some((keyword, rest)),
            None => None,
        },
        [] => None,
    }
}

/// What the parts after the word of a `prod` or a `var` line state.
fn directive_of(alloc: Global, keyword: Keyword, parts: &[&[u8]]) -> Result<Directive, RowError>
    ensures { MatchResult result (IsDirectiveOf (keyword_text keyword ∷ texts parts.now))
        (NoneIs (IsDirectiveOf (keyword_text keyword ∷ texts parts.now))) }
{
    match keyword {
        Keyword::Prod => match read_prod(alloc, parts) {
            Ok(production) => Ok(Directive::Prod(production)),
            Err(e) => Err(e),
        },
        Keyword::Var => match read_var(alloc, parts) {
            Ok(var) => Ok(Directive::Var {
                stem: var.stem,
                sort: var.sort,
            }),
            Err(e) => Err(e),
        },
        _ => Err(RowError::Shape),
    }
}

/// What a `prod` or a `var` line states. `Shape` comes exactly where the line is neither: where its
/// first part is another word, or the parts after it are not as stated.
pub fn read_directive_row(alloc: Global, line: &[u8]) -> Result<Directive, RowError>
    ensures { MatchResult result (IsDirective line.now) (NoneIs (IsDirective line.now)) }
{
    let parts = split_parts(alloc, line)?;
    match split_keyword(&parts) {
        Some((keyword, rest)) => directive_of(alloc, keyword, rest),
        None => Err(RowError::Shape),
    }
}

/// The row of a word alone, where no part follows it.
fn alone(parts: &[&[u8]], row: Row) -> Result<Row, RowError>
    ensures { MatchResult result (λ r. (r ≡ row) × (texts parts.now ≡ []))
        (λ _. texts parts.now ≡ [] → ⊥) }
{
    if parts.is_empty() {
        return Ok(row);
    }
    drop(row);
    Err(RowError::Shape)
}

/// The row of a word with the parts after it, in this line.
fn row_of(alloc: Global, keyword: Keyword, parts: &[&[u8]], line: &[u8]) -> Result<Row, RowError>
    ensures { MatchResult result (IsRowOf keyword line.now (texts parts.now))
        (NoneIs (IsRowOf keyword line.now (texts parts.now))) }
{
    match keyword {
        Keyword::Language => match read_name(alloc, parts) {
            Ok(name) => Ok(Row::Language(name)),
            Err(e) => Err(e),
        },
        Keyword::Sort => match read_sort(alloc, parts) {
            Ok(sort) => Ok(Row::Sort(sort)),
            Err(e) => Err(e),
        },
        Keyword::Prod => match read_prod(alloc, parts) {
            Ok(production) => Ok(Row::Prod(production)),
            Err(e) => Err(e),
        },
        Keyword::Var => match read_var(alloc, parts) {
            Ok(var) => Ok(Row::Var(var)),
            Err(e) => Err(e),
        },
        Keyword::Form => match read_form(alloc, parts) {
            Ok(form) => Ok(Row::Form(form)),
            Err(e) => Err(e),
        },
        Keyword::Main => match read_main(alloc, parts) {
            Ok(main) => Ok(Row::Main(main)),
            Err(e) => Err(e),
        },
        Keyword::Rule => match read_name(alloc, parts) {
            Ok(name) => Ok(Row::Rule(name)),
            Err(e) => Err(e),
        },
        Keyword::Bar => alone(parts, Row::Bar),
        Keyword::End => alone(parts, Row::End),
        Keyword::Extension => match read_module_name(alloc, parts) {
            Ok(name) => Ok(Row::Extension(name)),
            Err(e) => Err(e),
        },
        Keyword::Use => match read_module_name(alloc, parts) {
            Ok(name) => Ok(Row::Use(name)),
            Err(e) => Err(e),
        },
        Keyword::Plain => match read_plain(alloc, parts) {
            Ok(plain) => Ok(Row::Plain(plain)),
            Err(e) => Err(e),
        },
        Keyword::To => match body_of(alloc, line) {
            Ok(body) => Ok(Row::To(body)),
            Err(e) => Err(e),
        },
    }
}

/// Whether the line, which begins with the word, is one of files of this kind: `to` has a body.
fn is_line_of(kind: FileKind, keyword: Keyword, line: &[u8]) -> bool
    ensures { IsTrue result ↔ IsLineOf kind keyword line.now }
{
    match keyword {
        Keyword::To => is_word_of(kind, keyword) && has_body(line),
        _ => is_word_of(kind, keyword),
    }
}

/// What a line of a file of this kind states: `None` exactly where its first part is no word that
/// begins such a line, or it is `to` and no body follows it, and `Shape` exactly where it is such a
/// line and the parts after its word are not as stated.
pub fn read_row(alloc: Global, kind: FileKind, line: &[u8]) -> Result<Option<Row>, RowError>
    ensures { IsRowRead kind line.now result }
{
    let parts = split_parts(alloc, line)?;
    match split_keyword(&parts) {
        Some((keyword, rest)) => {
            if !is_line_of(kind, keyword, line) {
                return Ok(None);
            }
            match row_of(alloc, keyword, rest, line) {
                Ok(row) => Ok(Some(row)),
                Err(e) => Err(e),
            }
        }
        None => Ok(None),
    }
}
