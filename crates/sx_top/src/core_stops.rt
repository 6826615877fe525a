//! The refusals of core files.

ghost use Rattle.std.specs.Prelude.{◌≡◌, ℕ, List, IfOk, Some};
ghost use Rattle.sx_top.specs.CoreStops as stops;
ghost use Rattle.sx_top.specs.LowerStops.{core_stop};
ghost use Rattle.sx_steps.specs.Stops as shared;

use std::alloc::Global;
use sx_core::CoreFileError;
use sx_rules::RuleError;
use sx_steps::{Stop, bad_line, bad_rules, refused};
use sx_term::{NoMemory, Text};
use sx_words::{Defect, FileDefect, TextDefect};

/// The name of a variable in the lines about a core file.
fn variable_name(alloc: Global, variable: u32) -> Result<Text, NoMemory>
    ensures { IfOk result (λ name. name ≡ stops.variable_name variable) }
{
    let name = format!(in alloc; "?{variable}")?;
    Text::of_str(alloc, &name)
}

/// The name of the variable that the error names; empty where it names none.
fn named_variable(alloc: Global, error: &RuleError) -> Result<Text, NoMemory>
    ensures { (file : List ℕ) →
        IfOk result (λ name. shared.bad_rules file (λ number. name) error.now ≡ shared.bad_rules
        file stops.variable_name error.now) }
{
    match error {
        RuleError::NotModed(_, variable) => variable_name(alloc, *variable),
        _ => Text::of_str(alloc, ""),
    }
}

/// The refusal of rules that are no rule set.
fn bad_core_rules(alloc: Global, file: &Text, error: RuleError) -> Result<Stop, NoMemory>
    ensures { IfOk result (λ stop.
        shared.bad_rules file.now stops.variable_name error ≡ Some stop) }
{
    let variable = named_variable(alloc, &error)?;
    bad_rules(alloc, file, error, &variable)
}

/// The refusal of a core file. Where a core text is too deep, the line is not told.
pub fn bad_core(alloc: Global, file: &Text, error: CoreFileError) -> Result<Stop, NoMemory>
    ensures { IfOk result (λ stop. core_stop file.now error ≡ Some stop) }
{
    match error {
        CoreFileError::Memory => Err(NoMemory::Memory),
        CoreFileError::NotUtf8(before) => refused(
            alloc,
            file,
            Defect::File(FileDefect::NotUtf8(before as u64)),
        ),
        CoreFileError::Notation { line, kind } => bad_line(alloc, file, line, kind),
        CoreFileError::TooDeep { line: _, depth } => refused(
            alloc,
            file,
            Defect::Text(TextDefect::TooDeep(depth)),
        ),
        CoreFileError::Rules(error) => bad_core_rules(alloc, file, error),
    }
}
