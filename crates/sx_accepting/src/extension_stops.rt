//! The refusals of extension files.

ghost use Rattle.std.specs.Prelude.{◌≡◌, ◌++◌, codes, IfOk, Some};
ghost use Rattle.sx_accepting.specs.ExtensionStops as stops;

use crate::language_stops::bad_language;
use std::alloc::Global;
use sx_extension::{ExtensionError, PlainDefect};
use sx_steps::{Stop, joined, refused, refused_at};
use sx_term::{NoMemory, Text};
use sx_words::{Defect, ExtensionDefect, Position, TextDefect};

/// The name of a metavariable, with the mark before it.
fn marked(alloc: Global, name: &Text) -> Result<Text, NoMemory>
    ensures { IfOk result (λ text. text ≡ codes "~" ++ name.now) }
{
    let mark = Text::of_str(alloc, "~")?;
    joined(alloc, &mark, name)
}

/// A defect of the plain body of the production with this label.
fn of_plain(alloc: Global, file: &Text, label: Text, what: Defect) -> Result<Stop, NoMemory>
    ensures { IfOk result (λ stop. stop ≡ stops.of_plain file.now label what) }
{
    refused_at(alloc, file, Position::Plain(label), what)
}

/// The refusal of a plain body that drops the part with this name.
fn dropped_part(alloc: Global, file: &Text, label: Text, name: &Text) -> Result<Stop, NoMemory>
    ensures { IfOk result (λ stop. stop ≡ stops.dropped_part file.now label name.now) }
{
    match marked(alloc, name) {
        Ok(name) => {
            let what = Defect::Extension(ExtensionDefect::Drops(name));
            of_plain(alloc, file, label, what)
        }
        Err(e) => {
            drop(label);
            Err(e)
        }
    }
}

/// The refusal of a plain body.
fn bad_plain(alloc: Global, file: &Text, label: Text, error: PlainDefect) -> Result<Stop, NoMemory>
    ensures { IfOk result (λ stop. stop ≡ stops.bad_plain file.now label error) }
{
    let what = match error {
        PlainDefect::Twice => {
            let twice = Defect::Extension(ExtensionDefect::Twice(label));
            return refused(alloc, file, twice);
        }
        PlainDefect::Drops(name) => return dropped_part(alloc, file, label, &name),
        PlainDefect::UsesLater(used) => Defect::Extension(ExtensionDefect::UsesLater(used)),
        PlainDefect::TooDeep(depth) => Defect::Text(TextDefect::TooDeep(u64::from(depth))),
        PlainDefect::TooBig(size) => Defect::Text(TextDefect::TooBig(size)),
    };
    of_plain(alloc, file, label, what)
}

/// A defect of the rule with this name.
fn of_rule(alloc: Global, file: &Text, name: Text, what: ExtensionDefect) -> Result<Stop, NoMemory>
    ensures { IfOk result (λ stop. stop ≡ stops.extension_rule_stop file.now name what) }
{
    refused_at(alloc, file, Position::Rule(name), Defect::Extension(what))
}

/// The refusal of a plain production without a plain body.
fn without_plain(alloc: Global, file: &Text, label: Text) -> Result<Stop, NoMemory>
    ensures { IfOk result (λ stop. stop ≡ stops.without_plain file.now label) }
{
    refused_at(
        alloc,
        file,
        Position::Production(label),
        Defect::Extension(ExtensionDefect::NoPlain),
    )
}

/// The refusal of an extension file.
pub fn bad_extension(alloc: Global, file: &Text, error: ExtensionError) -> Result<Stop, NoMemory>
    ensures { IfOk result (λ stop. stops.extension_stop file.now error ≡ Some stop) }
{
    match error {
        ExtensionError::Memory => Err(NoMemory::Memory),
        ExtensionError::Notation(error) => bad_language(alloc, file, error),
        ExtensionError::Plain(label, error) => bad_plain(alloc, file, label, error),
        ExtensionError::NoPlain(label) => without_plain(alloc, file, label),
        ExtensionError::NoBody(rule) => of_rule(alloc, file, rule, ExtensionDefect::NoBody),
        ExtensionError::BodySort(rule) => of_rule(alloc, file, rule, ExtensionDefect::BodySort),
        ExtensionError::BodyExtended(rule) => {
            of_rule(alloc, file, rule, ExtensionDefect::BodyExtended)
        }
    }
}
