//! Reading one of the first lines of an extension file.

ghost use Rattle.std.specs.Prelude.{◌≡◌, ◌↔◌, IsTrue, List, ℕ, MatchOption, MatchResult, OnOk};
ghost use Rattle.std.specs.Prelude.{IfOk};
ghost use Rattle.sx_directives.specs.Rows.{IsRow};
ghost use Rattle.sx_directives.specs.declared.file_kind.FileKind.TheVariants as files;
ghost use Rattle.sx_directives.specs.declared.row.Row.TheVariants as rows;
ghost use Rattle.sx_outline.specs.Headers.{HeaderData, IsLanguageLine, IsUseLine};
ghost use Rattle.sx_outline.specs.HeaderReading.{AreUsesFound, IsExtensionRefused};
ghost use Rattle.sx_outline.specs.HeaderReading.{IsLanguageRefused, IsUseRead, using};

use crate::header_uses::HeaderUses;
use crate::outline_error::{OutlineError, bad_line};
use crate::spelled_row::spelled_row;
use std::alloc::Global;
use sx_directives::{FileKind, Row, next_part};
use sx_lines::Kind;
use sx_term::{NoMemory, Text};

/// The name of the language, where the row states one.
fn language_of(row: Row) -> Option<Text>
    ensures { MatchOption result ((name : List ℕ) → row ≡ rows.Language name → ⊥)
        (λ name. row ≡ rows.Language name) }
{
    match row {
        Row::Language(name) => Some(name),
        other => {
            drop(other);
            None
        }
    }
}

/// The name of the language that the line states.
fn language_name(alloc: Global, text: &[u8]) -> Result<Option<Text>, NoMemory>
    ensures { IfOk result (λ o. MatchOption o ((name : List ℕ) → IsLanguageLine text.now name → ⊥)
        (λ name. IsLanguageLine text.now name)) }
{
    match spelled_row(alloc, FileKind::Extension, text)? {
        Some(row) => Ok(language_of(row)),
        None => Ok(None),
    }
}

/// The name of the extension, where the row states one.
fn extension_of(row: Row) -> Option<Text>
    ensures { MatchOption result ((name : List ℕ) → row ≡ rows.Extension name → ⊥)
        (λ name. row ≡ rows.Extension name) }
{
    match row {
        Row::Extension(name) => Some(name),
        other => {
            drop(other);
            None
        }
    }
}

/// The name of the extension that the line states.
fn extension_name(alloc: Global, text: &[u8]) -> Result<Option<Text>, NoMemory>
    ensures { IfOk result (λ o. MatchOption o
        ((name : List ℕ) → IsRow files.Extension text.now (rows.Extension name) → ⊥)
        (λ name. IsRow files.Extension text.now (rows.Extension name))) }
{
    match spelled_row(alloc, FileKind::Extension, text)? {
        Some(row) => Ok(extension_of(row)),
        None => Ok(None),
    }
}

/// Reads the first line, whatever the name of the extension is.
pub(crate) fn extension_line(alloc: Global, number: u32, text: &[u8]) -> Result<Text, OutlineError>
    ensures { MatchResult result (λ name. IsRow files.Extension text.now (rows.Extension name))
        (IsExtensionRefused number text.now) }
{
    match extension_name(alloc, text) {
        Ok(Some(name)) => Ok(name),
        Ok(None) => Err(bad_line(number, Kind::Head)),
        Err(_) => Err(OutlineError::Memory),
    }
}

/// Reads the second line.
pub(crate) fn language_line(alloc: Global, number: u32, text: &[u8]) -> Result<Text, OutlineError>
    ensures { MatchResult result (IsLanguageLine text.now) (IsLanguageRefused number text.now) }
{
    match language_name(alloc, text) {
        Ok(Some(name)) => Ok(name),
        Ok(None) => Err(bad_line(number, Kind::Head)),
        Err(_) => Err(OutlineError::Memory),
    }
}

/// Whether the first part of the line is `use`.
fn is_use_line(text: &[u8]) -> bool
    ensures { IsTrue result ↔ IsUseLine text.now }
{
    match next_part(text) {
        Some((part, _rest)) => part == b"use".as_slice(),
        None => false,
    }
}

/// The name that the row uses, where it is that of a `use` line.
fn use_of(row: Row) -> Option<Text>
    ensures { MatchOption result ((name : List ℕ) → row ≡ rows.Use name → ⊥)
        (λ name. row ≡ rows.Use name) }
{
    match row {
        Row::Use(name) => Some(name),
        other => {
            drop(other);
            None
        }
    }
}

/// The name that a `use` line states.
fn use_name(alloc: Global, text: &[u8]) -> Result<Option<Text>, NoMemory>
    ensures { IfOk result (λ o. MatchOption o
        ((name : List ℕ) → IsRow files.Extension text.now (rows.Use name) → ⊥)
        (λ name. IsRow files.Extension text.now (rows.Use name))) }
{
    match spelled_row(alloc, FileKind::Extension, text)? {
        Some(row) => Ok(use_of(row)),
        None => Ok(None),
    }
}

/// Reads a line after the second, and tells whether it is a `use` line.
pub(crate) fn use_line(
    alloc: Global,
    uses: &mut HeaderUses,
    number: u32,
    text: &[u8],
) -> Result<bool, OutlineError>
    requires { AreUsesFound uses.now }
    ensures read { (h : HeaderData) → IsUseRead (using h uses.old.names.items)
        (using h uses.new.names.items) number text.now result }
    ensures found { OnOk result (AreUsesFound uses.new) }
{
    if !is_use_line(text) {
        return Ok(false);
    }
    match use_name(alloc, text) {
        Ok(Some(name)) => match uses.add(alloc, name) {
            Ok(true) => Ok(true),
            Ok(false) => Err(bad_line(number, Kind::Shape)),
            Err(_) => Err(OutlineError::Memory),
        },
        Ok(None) => Err(bad_line(number, Kind::Shape)),
        Err(_) => Err(OutlineError::Memory),
    }
}
