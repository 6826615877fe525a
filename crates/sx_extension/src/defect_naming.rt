//! Defects of plain bodies by names.

ghost use Rattle.std.specs.Prelude.{◌≡◌, ◌<◌, Some, length, slice_get, IfOk};
ghost use Rattle.sx_grammar.specs.Parts.{labels};
ghost use Rattle.sx_outline.specs.Stages.{plain_data};
ghost use Rattle.sx_extension.specs.Defects.{IsDefect, CanName};

use crate::plain_defect::PlainDefect;
use std::alloc::Global;
use sx_grammar::Grammar;
use sx_outline::PlainLines;
use sx_plain::PlainError;
use sx_term::{NoMemory, Text};

/// The label with this number.
pub(crate) fn label_of(alloc: Global, grammar: &Grammar, label: u32) -> Result<Text, NoMemory>
    requires { label < length grammar.now.parts.productions }
    ensures { IfOk result (λ t. slice_get (labels grammar.now.parts) label ≡ Some t) }
{
    let productions = &grammar.parts().productions;
    productions[label as usize].label.copy(alloc)
}

/// The name of the part with this number.
fn part_of(alloc: Global, lines: &PlainLines, part: u32) -> Result<Text, NoMemory>
    requires { part < length lines.now.names.items }
    ensures { IfOk result (λ t. slice_get lines.now.names.items part ≡ Some t) }
{
    lines.names[part as usize].copy(alloc)
}

/// The defect of the plain body that the pair states, by names.
pub(crate) fn defect_of(
    alloc: Global,
    grammar: &Grammar,
    lines: &PlainLines,
    error: PlainError,
) -> Result<PlainDefect, NoMemory>
    requires { CanName grammar.now.parts (plain_data lines.now) error }
    ensures { IfOk result (IsDefect grammar.now.parts (plain_data lines.now) error) }
{
    match error {
        PlainError::Memory => Err(NoMemory::Memory),
        PlainError::Twice(_) => Ok(PlainDefect::Twice),
        PlainError::UsesLater(label) => Ok(PlainDefect::UsesLater(label_of(
            alloc, grammar, label,
        )?)),
        PlainError::Drops(part) => Ok(PlainDefect::Drops(part_of(alloc, lines, part)?)),
        PlainError::TooDeep(depth) => Ok(PlainDefect::TooDeep(depth)),
        PlainError::TooBig(nodes) => Ok(PlainDefect::TooBig(nodes)),
    }
}
