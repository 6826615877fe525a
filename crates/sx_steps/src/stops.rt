//! Stops that more than one command has.

ghost use Rattle.std.specs.Prelude.{◌≡◌, IfOk, Some};
ghost use Rattle.sx_steps.specs.Refusal.{about as stop_about};
ghost use Rattle.sx_steps.specs.Stops as stops;

use crate::stop::{Stop, about};
use std::alloc::Global;
use sx_lines::Kind;
use sx_rules::RuleError;
use sx_term::{NoMemory, Text};
use sx_words::{Defect, FileDefect, Position, Refusal, RuleDefect};

/// A defect of the file, of which the line says no place.
pub fn refused(alloc: Global, file: &Text, defect: Defect) -> Result<Stop, NoMemory>
    ensures { IfOk result (λ stop. stop ≡ stop_about file.now defect) }
{
    match file.copy(alloc) {
        Ok(file) => Ok(about(file, defect)),
        Err(e) => {
            drop(defect);
            Err(e)
        }
    }
}

/// A defect of the file, at a place.
pub fn refused_at(
    alloc: Global,
    file: &Text,
    place: Position,
    defect: Defect,
) -> Result<Stop, NoMemory>
    ensures { IfOk result (λ stop. stop ≡ stops.defect_at place file.now defect) }
{
    match file.copy(alloc) {
        Ok(file) => Ok(Stop {
            file,
            refusal: Refusal { place, defect },
        }),
        Err(e) => {
            drop(defect);
            drop(place);
            Err(e)
        }
    }
}

/// The kind of what is bad about a line, in lower case.
fn kind_name(kind: Kind) -> &'static str
    ensures { result.now ≡ stops.bad_kind_text kind }
{
    match kind {
        Kind::Head => "head",
        Kind::Directive => "directive",
        Kind::Shape => "shape",
        Kind::Order => "order",
        Kind::Unfinished => "unfinished",
        Kind::Main => "main",
        Kind::Variable => "variable",
    }
}

/// The refusal of a bad line.
pub fn bad_line(alloc: Global, file: &Text, line: u32, kind: Kind) -> Result<Stop, NoMemory>
    ensures { IfOk result (λ stop. stop ≡ stops.bad_line file.now line (stops.bad_kind_text kind)) }
{
    let kind = Text::of_str(alloc, kind_name(kind))?;
    let defect = Defect::File(FileDefect::Notation(kind));
    refused_at(alloc, file, Position::Line(line), defect)
}

/// A defect of the rule with the name.
fn of_rule(alloc: Global, file: &Text, name: Text, what: RuleDefect) -> Result<Stop, NoMemory>
    ensures { IfOk result (λ stop. stop ≡ stops.of_rule file.now name what) }
{
    refused_at(alloc, file, Position::Rule(name), Defect::Rule(what))
}

/// The refusal of rules that are no rule set. A variable that is not bound is told by this name.
pub fn bad_rules(
    alloc: Global,
    file: &Text,
    error: RuleError,
    variable: &Text,
) -> Result<Stop, NoMemory>
    ensures { IfOk result (λ stop.
        stops.bad_rules file.now (λ number. variable.now) error ≡ Some stop) }
{
    match error {
        RuleError::Memory => Err(NoMemory::Memory),
        RuleError::TooManyRules => refused(alloc, file, Defect::Rule(RuleDefect::TooManyRules)),
        RuleError::SameRule(name) => refused(alloc, file, Defect::Rule(RuleDefect::SameRule(name))),
        RuleError::TooManyVars(name) => of_rule(alloc, file, name, RuleDefect::TooManyVars),
        RuleError::SortDiffers(name) => of_rule(alloc, file, name, RuleDefect::SortDiffers),
        RuleError::Discipline(name, part, premise) => {
            let what = RuleDefect::Discipline {
                part: u32::from(part),
                premise: premise as u64,
            };
            of_rule(alloc, file, name, what)
        }
        RuleError::NotModed(name, _) => {
            let variable = variable.copy(alloc)?;
            of_rule(alloc, file, name, RuleDefect::NotModed(variable))
        }
    }
}
