//! Defects of rule sets.

ghost use Rattle.std.specs.Prelude.{◌≡◌, ◌++◌, OnOk};
ghost use Rattle.sx_words.specs.RefusalText.{rule_text};

use crate::parts::{number, put, put_named, put_words};
use std::alloc::Global;
use sx_term::{NoMemory, Text};

/// What is wrong with a set of rules.
#[derive(Drop)]
pub enum RuleDefect {
    /// More rules than a set may have.
    TooManyRules,
    /// More variables than a rule may have. At `Position::Rule`.
    TooManyVars,
    /// The name of two rules.
    SameRule(Text),
    /// A term of another sort than its place. At `Position::Rule`.
    SortDiffers,
    /// A part of the discipline that a premise breaks. At `Position::Rule`.
    Discipline { part: u32, premise: u64 },
    /// A variable that is not bound, with the mark before its name: `~V`, in a core file `?N`. At
    /// `Position::Rule`.
    NotModed(Text),
}

/// Appends the defect's text.
pub(crate) fn put_rule(
    alloc: Global,
    defect: &RuleDefect,
    into: &mut Vec<u8>,
) -> Result<(), NoMemory>
    ensures { OnOk result (into.new.items ≡ into.old.items ++ rule_text defect.now) }
{
    match defect {
        RuleDefect::TooManyRules => put_words(b"more than 4096 rules", into),
        RuleDefect::TooManyVars => put_words(b"more than 64 variables", into),
        RuleDefect::SameRule(text) => put_named(b"rule ", text, b" stands twice", into),
        RuleDefect::SortDiffers => put_words(b"sorts differ", into),
        RuleDefect::Discipline { part, premise } => {
            let part = number(alloc, u64::from(*part))?;
            let premise = number(alloc, *premise)?;
            put(
                &[
                    b"part ",
                    part.as_str().as_bytes(),
                    b" of the discipline at premise ",
                    premise.as_str().as_bytes(),
                ],
                into,
            )
        }
        RuleDefect::NotModed(text) => put_named(b"", text, b" is not bound", into),
    }
}
