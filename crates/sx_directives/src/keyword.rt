//! The words that begin the lines of language and extension files.

ghost use Rattle.std.specs.Prelude.{◌≡◌, MatchOption};
ghost use Rattle.sx_directives.specs.Rows as spec;
ghost use Rattle.sx_directives.specs.Rows.{keyword_text};
ghost use Rattle.sx_directives.specs.declared.keyword.Keyword.{Keyword as KeywordOf};

use crate::file_kind::FileKind;

/// A word that begins a line of a language file or of an extension file.
#[derive(Clone, Copy, PartialEq, Eq, Debug)]
pub(crate) enum Keyword {
    Language,
    Sort,
    Prod,
    Var,
    Form,
    Main,
    Rule,
    Bar,
    End,
    Extension,
    Use,
    Plain,
    To,
}

/// Whether the word begins lines of files of this kind.
pub(crate) fn is_word_of(kind: FileKind, keyword: Keyword) -> bool
    ensures { result ≡ spec.is_word_of kind keyword }
{
    match kind {
        FileKind::Language => !matches!(
            keyword,
            Keyword::Extension | Keyword::Use | Keyword::Plain | Keyword::To
        ),
        FileKind::Extension => { !matches!(keyword, Keyword::Sort | Keyword::Form | Keyword::Main) }
    }
}

/// The word that a part is, where it is one that begins a line.
pub(crate) fn keyword_of(part: &[u8]) -> Option<Keyword>
    ensures { MatchOption result ((k : KeywordOf) → part.now ≡ keyword_text k → ⊥)
        (λ k. part.now ≡ keyword_text k) }
{
    if part == b"language".as_slice() {
        return Some(Keyword::Language);
    }
    if part == b"sort".as_slice() {
        return Some(Keyword::Sort);
    }
    if part == b"prod".as_slice() {
        return Some(Keyword::Prod);
    }
    if part == b"var".as_slice() {
        return Some(Keyword::Var);
    }
    if part == b"form".as_slice() {
        return Some(Keyword::Form);
    }
    if part == b"main".as_slice() {
        return Some(Keyword::Main);
    }
    if part == b"rule".as_slice() {
        return Some(Keyword::Rule);
    }
    if part == b"---".as_slice() {
        return Some(Keyword::Bar);
    }
    if part == b"end".as_slice() {
        return Some(Keyword::End);
    }
    if part == b"extension".as_slice() {
        return Some(Keyword::Extension);
    }
    if part == b"use".as_slice() {
        return Some(Keyword::Use);
    }
    if part == b"plain".as_slice() {
        return Some(Keyword::Plain);
    }
    if part == b"to".as_slice() {
        return Some(Keyword::To);
    }
    None
}
