//! The steps that replay a derivation list.

ghost use Rattle.std.specs.Prelude.{◌≡◌, ◌≤◌, ◌∷◌, [], IfOk, length, map};
ghost use Rattle.sx_term.specs.declared.role.Role.TheVariants.{Out};
ghost use Rattle.sx_term.specs.Term.{tree};
ghost use Rattle.sx_notation.specs.Language.{IsLanguage, language_data};
ghost use Rattle.sx_steps.specs.Stop.{Gives, IsNoFault};
ghost use Rattle.sx_rules.specs.Deep.{AreShallow};
ghost use Rattle.sx_rules.specs.Sets.{forms_in, rules_in};
ghost use Rattle.sx_rules.specs.Views.{goal as goal_of};
ghost use Rattle.sx_verify.specs.Replays.{IsMainGoal, IsTermOf, ReplaysMainGoal, ReplaysGoal};

use crate::replay_stops::bad_replay;
use std::alloc::Global;
use sx_notation::Language;
use sx_replay::replay;
use sx_rules::{Entry, Goal, Hyps, RuleSet};
use sx_steps::StepError;
use sx_term::{Term, Text};

/// The one output.
fn only_output(outputs: Vec<Term>) -> Term
    requires { length outputs.items ≡ 1 }
    ensures { outputs.items ≡ result ∷ [] }
{
    let mut outputs = outputs;
    match outputs.pop() {
        Some(output) => output,
        None => unreachable!(),
    }
}

/// The outputs of the derivation of the goal, by these rules alone, that has the list of the file.
/// The goal's terms are at most 1,000 deep, and the list has at most 67,108,864 entries.
pub fn replay_goal(
    alloc: Global,
    file: &Text,
    rules: &RuleSet,
    goal: &Goal,
    list: &[Entry],
) -> Result<Vec<Term>, StepError>
    requires goal { AreShallow (goal_of goal.now).terms }
    requires few { length list.now ≤ 67108864 }
    ensures step { Gives (λ outputs. map tree outputs.items) (ReplaysGoal file.now
        (forms_in rules.now) (rules_in rules.now) (goal_of goal.now) list.now) result }
    ensures shallow { IfOk result (λ outputs. AreShallow (map tree outputs.items)) }
    ensures no_fault { IsNoFault result }
{
    let given = Hyps::none(alloc);
    match replay(alloc, rules, &given, goal, list) {
        Ok(outputs) => Ok(outputs),
        Err(error) => match bad_replay(alloc, file, error) {
            Ok(stop) => Err(StepError::Stopped(stop)),
            Err(_) => Err(StepError::Memory),
        },
    }
}

/// The output of the derivation of the main goal that has the list of the file, by the language's
/// rules alone.
pub(crate) fn replay_list(
    alloc: Global,
    file: &Text,
    language: &Language,
    goal: &Goal,
    list: &[Entry],
) -> Result<Term, StepError>
    requires language { IsLanguage language.now }
    requires goal { IsMainGoal (language_data language.now) (goal_of goal.now) }
    requires few { length list.now ≤ 67108864 }
    ensures step { Gives tree
        (ReplaysMainGoal file.now (language_data language.now) (goal_of goal.now) list.now) result }
    ensures good { IfOk result (λ t. IsTermOf (language_data language.now) Out (tree t)) }
    ensures no_fault { IsNoFault result }
{
    language.rules.facts();
    match replay_goal(alloc, file, &language.rules, goal, list) {
        Ok(outputs) => Ok(only_output(outputs)),
        Err(e) => Err(e),
    }
}
