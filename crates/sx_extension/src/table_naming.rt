//! Refusals of plain tables by names.

ghost use Rattle.std.specs.Prelude.{◌<◌, length, map};
ghost use Rattle.sx_outline.specs.Stages.{plain_data};
ghost use Rattle.sx_extension.specs.Defects.{CanName};
ghost use Rattle.sx_extension.specs.TableRefusals.{IsPlainRefusal, IsNoPlain, IsTableRefusal};
ghost use Rattle.sx_extension.specs.TableRefusals.{CanNameTable};

use crate::defect_naming::{defect_of, label_of};
use crate::extension_error::ExtensionError;
use crate::table_error::TableError;
use std::alloc::Global;
use sx_grammar::Grammar;
use sx_outline::PlainLines;
use sx_plain::PlainError;

/// The refusal of the plain body that the pair states.
fn plain_refusal(
    alloc: Global,
    grammar: &Grammar,
    lines: &PlainLines,
    error: PlainError,
) -> ExtensionError
    requires { CanName grammar.now.parts (plain_data lines.now) error }
    ensures { IsPlainRefusal grammar.now.parts (plain_data lines.now) error result }
{
    match defect_of(alloc, grammar, lines, error) {
        Ok(defect) => match lines.label.copy(alloc) {
            Ok(label) => ExtensionError::Plain(label, defect),
            Err(_) => {
                drop(defect);
                ExtensionError::Memory
            }
        },
        Err(_) => ExtensionError::Memory,
    }
}

/// The refusal of the production with this number, which has no plain body.
fn no_plain(alloc: Global, grammar: &Grammar, label: u32) -> ExtensionError
    requires { label < length grammar.now.parts.productions }
    ensures { IsNoPlain grammar.now.parts label result }
{
    match label_of(alloc, grammar, label) {
        Ok(label) => ExtensionError::NoPlain(label),
        Err(_) => ExtensionError::Memory,
    }
}

/// The refusal of the plain table of these pairs, by the labels of the grammar and the names of
/// their parts.
pub(crate) fn table_refusal(
    alloc: Global,
    grammar: &Grammar,
    plains: &[PlainLines],
    error: TableError,
) -> ExtensionError
    requires { CanNameTable grammar.now.parts (map plain_data plains.now) error }
    ensures { IsTableRefusal grammar.now.parts (map plain_data plains.now) error result }
{
    match error {
        TableError::Memory => ExtensionError::Memory,
        TableError::Plain(number, cause) => {
            let lines = &plains[number];
            plain_refusal(alloc, grammar, lines, cause)
        }
        TableError::NoPlain(label) => no_plain(alloc, grammar, label),
    }
}
