//! Reading the parts of a line after its first word.

ghost use Rattle.std.specs.Prelude.{◌≡◌, ◌↔◌, Bool, IsTrue, Some, codes, MatchOption, MatchResult};
ghost use Rattle.sx_lines.specs.Words.{number_within};
ghost use Rattle.sx_grammar.specs.Parts.{line};
ghost use Rattle.sx_grammar.specs.Parts.{texts};
ghost use Rattle.sx_directives.specs.Spelling.{NoneIs};
ghost use Rattle.sx_directives.specs.Rows.{kind_text, AreBrackets, IsSortRow, IsProdRow, IsVarRow};
ghost use Rattle.sx_directives.specs.Rows.{IsFormRow, IsMainRow, IsModuleRow, IsNameRow};
ghost use Rattle.sx_directives.specs.Rows.{IsPlainRow};

use crate::part_texts::{literal_of, module_name_of, name_of, stem_of};
use crate::row_error::RowError;
use crate::rows::{FormLine, MainLine, PlainLine, VarLine};
use crate::sorts::sort_name_of;
use crate::symbols::{form_symbols_of, symbols_of};
use crate::variables::variables_of;
use std::alloc::Global;
use sx_grammar::{Production, SortLine};
use sx_lines::number_within;
use sx_term::Text;

/// Whether the part is a colon.
fn is_colon(part: &[u8]) -> bool
    ensures { IsTrue result ↔ (part.now ≡ codes ":") }
{
    part == b":".as_slice()
}

/// Reads `STEM : SORT`.
pub(crate) fn read_var(alloc: Global, parts: &[&[u8]]) -> Result<VarLine, RowError>
    ensures { MatchResult result (IsVarRow (texts parts.now))
        (NoneIs (IsVarRow (texts parts.now))) }
{
    match parts {
        [stem, colon, sort] => {
            if !is_colon(*colon) {
                return Err(RowError::Shape);
            }
            Ok(VarLine {
                stem: stem_of(alloc, *stem)?,
                sort: name_of(alloc, *sort)?,
            })
        }
        _ => Err(RowError::Shape),
    }
}

/// Reads `NAME`.
pub(crate) fn read_name(alloc: Global, parts: &[&[u8]]) -> Result<Text, RowError>
    ensures { MatchResult result (IsNameRow (texts parts.now))
        (NoneIs (IsNameRow (texts parts.now))) }
{
    match parts {
        [name] => name_of(alloc, *name),
        _ => Err(RowError::Shape),
    }
}

/// Reads `NAME`, the name of a module.
pub(crate) fn read_module_name(alloc: Global, parts: &[&[u8]]) -> Result<Text, RowError>
    ensures { MatchResult result (IsModuleRow (texts parts.now))
        (NoneIs (IsModuleRow (texts parts.now))) }
{
    match parts {
        [name] => module_name_of(alloc, *name),
        _ => Err(RowError::Shape),
    }
}

/// Reads `LABEL VAR..`.
pub(crate) fn read_plain(alloc: Global, parts: &[&[u8]]) -> Result<PlainLine, RowError>
    ensures { MatchResult result (IsPlainRow (texts parts.now))
        (NoneIs (IsPlainRow (texts parts.now))) }
{
    match parts {
        [label, names @ ..] => {
            let label = name_of(alloc, *label)?;
            match variables_of(alloc, names) {
                Ok(names) => Ok(PlainLine { label, names }),
                Err(e) => Err(e),
            }
        }
        [] => Err(RowError::Shape),
    }
}

/// Reads `FORM LABEL LABEL`.
pub(crate) fn read_main(alloc: Global, parts: &[&[u8]]) -> Result<MainLine, RowError>
    ensures { MatchResult result (IsMainRow (texts parts.now))
        (NoneIs (IsMainRow (texts parts.now))) }
{
    match parts {
        [form, empty, add] => Ok(MainLine {
            form: name_of(alloc, *form)?,
            empty: name_of(alloc, *empty)?,
            add: name_of(alloc, *add)?,
        }),
        _ => Err(RowError::Shape),
    }
}

/// Reads `NAME : SYMBOL..` of a form.
pub(crate) fn read_form(alloc: Global, parts: &[&[u8]]) -> Result<FormLine, RowError>
    ensures { MatchResult result (IsFormRow (texts parts.now))
        (NoneIs (IsFormRow (texts parts.now))) }
{
    match parts {
        [name, colon, symbols @ ..] => {
            if !is_colon(*colon) {
                return Err(RowError::Shape);
            }
            let name = name_of(alloc, *name)?;
            match form_symbols_of(alloc, symbols) {
                Ok(symbols) => Ok(FormLine { name, symbols }),
                Err(e) => Err(e),
            }
        }
        _ => Err(RowError::Shape),
    }
}

/// The level that digits spell.
fn level_of(digits: &[u8]) -> Result<u8, RowError>
    ensures { MatchResult result (λ level. number_within 99 digits.now ≡ Some level)
        (NoneIs (λ level. number_within 99 digits.now ≡ Some level)) }
{
    match number_within(99, digits) {
        Some(level) => Ok(level as u8),
        None => Err(RowError::Shape),
    }
}

/// Reads `LABEL SORT LEVEL : SYMBOL..`.
pub(crate) fn read_prod(alloc: Global, parts: &[&[u8]]) -> Result<Production, RowError>
    ensures { MatchResult result (λ p. IsProdRow (texts parts.now) (line p))
        (NoneIs (IsProdRow (texts parts.now))) }
{
    match parts {
        [label, sort, level, colon, symbols @ ..] => {
            if !is_colon(*colon) {
                return Err(RowError::Shape);
            }
            let level = level_of(*level)?;
            let label = name_of(alloc, *label)?;
            let sort = name_of(alloc, *sort)?;
            match symbols_of(alloc, symbols) {
                Ok(symbols) => Ok(Production {
                    label,
                    sort,
                    level,
                    symbols,
                }),
                Err(e) => Err(e),
            }
        }
        _ => Err(RowError::Shape),
    }
}

/// Whether a sort is typed.
fn kind_of(part: &[u8]) -> Option<bool>
    ensures { MatchOption result ((typed : Bool) → part.now ≡ kind_text typed → ⊥)
        (λ typed. part.now ≡ kind_text typed) }
{
    if part == b"typed".as_slice() {
        return Some(true);
    }
    if part == b"plain".as_slice() {
        return Some(false);
    }
    None
}

/// The bracket pair that parts spell, or none where there are no parts.
fn brackets_of(alloc: Global, parts: &[&[u8]]) -> Result<Option<(Text, Text)>, RowError>
    ensures { MatchResult result (AreBrackets (texts parts.now))
        (NoneIs (AreBrackets (texts parts.now))) }
{
    match parts {
        [] => Ok(None),
        [left, right] => Ok(Some((literal_of(alloc, *left)?, literal_of(alloc, *right)?))),
        _ => Err(RowError::Shape),
    }
}

/// Reads `NAME plain` or `NAME typed`, where the name is that of no lexical sort, with or without
/// two literals in quotes.
pub(crate) fn read_sort(alloc: Global, parts: &[&[u8]]) -> Result<SortLine, RowError>
    ensures { MatchResult result (IsSortRow (texts parts.now))
        (NoneIs (IsSortRow (texts parts.now))) }
{
    match parts {
        [name, kind, brackets @ ..] => match kind_of(*kind) {
            Some(typed) => {
                let name = sort_name_of(alloc, *name)?;
                match brackets_of(alloc, brackets) {
                    Ok(brackets) => Ok(SortLine {
                        name,
                        typed,
                        brackets,
                    }),
                    Err(e) => Err(e),
                }
            }
            None => Err(RowError::Shape),
        },
        _ => Err(RowError::Shape),
    }
}
