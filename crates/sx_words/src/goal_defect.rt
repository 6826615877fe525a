//! Goals that are stuck.

ghost use Rattle.std.specs.Prelude.{◌≡◌, ◌++◌, OnOk};
ghost use Rattle.sx_words.specs.RefusalText.{stuck_goal_text};

use crate::parts::{number, put, put_named};
use std::alloc::Global;
use sx_term::{NoMemory, Text};

/// Why a goal has no derivation: the goal where the walk is stuck, as it is printed. At
/// `Position::Spot` in a module file, at `Position::Rule` in accepting a rule, and at
/// `Position::Nowhere` in a core file.
#[derive(Drop)]
pub enum GoalDefect {
    /// No rule concludes the goal.
    NoRule {
        goal: Text,
    },
    /// A premise that two terms differ does not hold. Outputs of the goal are shown as `_`.
    Equal {
        goal: Text,
        premise: u64,
        rule: Text,
    },
    /// The goal, with the outputs that it has, is not what a premise asks for.
    Mismatch {
        goal: Text,
        premise: u64,
        rule: Text,
    },
    /// The goal, with the outputs that it has, is not the stated conclusion.
    NotStated {
        goal: Text,
    },
}

/// Appends the defect's text.
pub(crate) fn put_goal(
    alloc: Global,
    defect: &GoalDefect,
    into: &mut Vec<u8>,
) -> Result<(), NoMemory>
    ensures { OnOk result (into.new.items ≡ into.old.items ++ stuck_goal_text defect.now) }
{
    match defect {
        GoalDefect::NoRule { goal } => put_named(b"no rule concludes ", goal, b"", into),
        GoalDefect::Equal {
            goal,
            premise,
            rule,
        } => {
            let premise = number(alloc, *premise)?;
            put(
                &[
                    goal.bytes(),
                    b": premise ",
                    premise.as_str().as_bytes(),
                    b" of ",
                    rule.bytes(),
                    b" does not hold",
                ],
                into,
            )
        }
        GoalDefect::Mismatch {
            goal,
            premise,
            rule,
        } => {
            let premise = number(alloc, *premise)?;
            put(
                &[
                    goal.bytes(),
                    b" is not what premise ",
                    premise.as_str().as_bytes(),
                    b" of ",
                    rule.bytes(),
                    b" asks for",
                ],
                into,
            )
        }
        GoalDefect::NotStated { goal } => put_named(
            b"",
            goal,
            b" is not the stated conclusion",
            into,
        ),
    }
}
