//! The refusals of modules that are not compiled.

ghost use Rattle.std.specs.Prelude.{◌≡◌, IfOk, Some};
ghost use Rattle.sx_compiling.specs.ModuleStops as stops;

use std::alloc::Global;
use sx_headers::{uncut_text, unread_text};
use sx_steps::{Stop, refused, refused_at};
use sx_term::{NoMemory, Text};
use sx_unit::ModuleError;
use sx_words::{BudgetDefect, Defect, GoalDefect, Position, TextDefect};

/// The refusal of a body without a type.
fn untyped(
    alloc: Global,
    file: &Text,
    line: u64,
    column: u64,
    why: GoalDefect,
) -> Result<Stop, NoMemory>
    ensures { IfOk result (λ stop. stop ≡ stops.untyped file.now line column why) }
{
    refused_at(
        alloc,
        file,
        Position::Spot { line, column },
        Defect::Goal(why),
    )
}

/// The refusal of a module that is not compiled.
pub(crate) fn bad_module(alloc: Global, file: &Text, error: ModuleError) -> Result<Stop, NoMemory>
    ensures { IfOk result (λ stop. stops.module_stop file.now error ≡ Some stop) }
{
    let defect = match error {
        ModuleError::Memory => return Err(NoMemory::Memory),
        ModuleError::Token {
            line,
            column,
            error,
        } => return uncut_text(alloc, file, line, column, error),
        ModuleError::Read {
            line,
            column,
            error,
        } => return unread_text(alloc, file, line, column, error),
        ModuleError::TypeError {
            line,
            column,
            stuck,
        } => return untyped(alloc, file, line, column, stuck),
        ModuleError::BudgetSpent(tries) => Defect::Budget(BudgetDefect::Tries(tries)),
        ModuleError::DepthSpent => Defect::Budget(BudgetDefect::Depth),
        ModuleError::TooDeep(depth) => Defect::Text(TextDefect::TooDeep(depth)),
        ModuleError::TooBig(size) => Defect::Text(TextDefect::TooBig(size)),
        ModuleError::RewriteSpent(nodes) => Defect::Budget(BudgetDefect::Nodes(nodes)),
        ModuleError::RewriteDeep => Defect::Budget(BudgetDefect::RewriteDepth),
        ModuleError::Print { part, defect } => Defect::Print { part, defect },
        ModuleError::Captured(word) => Defect::Captured(word),
    };
    refused(alloc, file, defect)
}
