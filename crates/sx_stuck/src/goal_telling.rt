//! Texts of stuck goals.

ghost use Rattle.std.specs.Prelude.{◌≡◌, IfOk, Option, Some, map, option_map};
ghost use Rattle.sx_term.specs.Term.{tree};
ghost use Rattle.sx_rules.specs.Views.{goal as goal_of};
ghost use Rattle.sx_derive.specs.Blames.{blame_of};
ghost use Rattle.sx_derive.specs.Stuck.{mismatch};
ghost use Rattle.sx_stuck.specs.StuckText as known;
ghost use Rattle.sx_stuck.specs.StuckText.{telling_of, shown_goal, CanShow, CanTell};

use crate::telling::Telling;
use std::alloc::Global;
use sx_derive::{Blame, Cause};
use sx_notation::print_goal;
use sx_rules::Goal;
use sx_term::{NoMemory, Term, Text};
use sx_words::{GoalDefect, premise_number};

/// The goal's text, with the outputs got.
fn shown_goal(
    alloc: Global,
    telling: &Telling,
    goal: &Goal,
    got: Option<&Vec<Term>>,
) -> Result<Text, NoMemory>
    requires { CanShow (telling_of telling.now) (goal_of goal.now)
        (option_map (λ w. map tree w.now.items) got) }
    ensures { IfOk result (λ text. text ≡ shown_goal (telling_of telling.now) (goal_of goal.now)
        (option_map (λ w. map tree w.now.items) got.entry)) }
{
    let mut bytes = Vec::new(alloc);
    print_goal(
        alloc,
        telling.language,
        telling.grammar,
        goal,
        got,
        telling.vars,
        &mut bytes,
    )?;
    Text::of_utf8(alloc, &bytes)
}

/// The text of a goal whose outputs got are not what the premise of a rule asks for, or else not
/// the stated ones.
fn mismatch_text(
    alloc: Global,
    telling: &Telling,
    goal: &Goal,
    by: Option<(u32, usize)>,
    got: &Vec<Term>,
) -> Result<GoalDefect, NoMemory>
    requires { CanShow (telling_of telling.now) (goal_of goal.now)
        (Some (map tree got.now.items)) }
    ensures { IfOk result (λ text. text ≡ known.stuck_text (telling_of telling.now)
        (goal_of goal.now) (mismatch by (map tree got.now.items))) }
{
    let goal = shown_goal(alloc, telling, goal, Some(got))?;
    match by {
        Some((rule, premise)) => {
            let rule = telling.rules.name_of(alloc, rule)?;
            let premise = premise_number(premise)?;
            Ok(GoalDefect::Mismatch {
                goal,
                premise,
                rule,
            })
        }
        None => Ok(GoalDefect::NotStated { goal }),
    }
}

/// The stuck goal's text, and why it is stuck. Premises count from 1.
pub fn stuck_text(alloc: Global, telling: &Telling, blame: &Blame) -> Result<GoalDefect, NoMemory>
    requires { CanTell (telling_of telling.now) (blame_of blame.now) }
    ensures { IfOk result (λ text. text ≡ known.stuck_text (telling_of telling.now)
        (blame_of blame.now).goal (blame_of blame.now).reason) }
{
    match &blame.cause {
        Cause::NoRule => {
            let goal = shown_goal(alloc, telling, &blame.goal, None)?;
            Ok(GoalDefect::NoRule { goal })
        }
        Cause::Equal { rule, premise } => {
            let goal = shown_goal(alloc, telling, &blame.goal, None)?;
            let rule = telling.rules.name_of(alloc, *rule)?;
            let premise = premise_number(*premise)?;
            Ok(GoalDefect::Equal {
                goal,
                premise,
                rule,
            })
        }
        Cause::Mismatch { by, got } => mismatch_text(alloc, telling, &blame.goal, *by, got),
    }
}
