//! Goals of core files that have no derivation.

ghost use Rattle.std.specs.Prelude.{◌≡◌, IfOk, Some, None, map};
ghost use Rattle.sx_term.specs.Term.{tree};
ghost use Rattle.sx_rules.specs.Views.{goal as goal_data};
ghost use Rattle.sx_rules.specs.Sets.{forms_in, rules_in};
ghost use Rattle.sx_derive.specs.Stuck as reasons;
ghost use Rattle.sx_derive.specs.Blames.{blame_of};
ghost use Rattle.sx_derive.specs.BlameTerms.{got_in};
ghost use Rattle.sx_top.specs.CoreTexts as core_texts;
ghost use Rattle.sx_top.specs.CoreStops.{stuck};
ghost use Rattle.sx_top.specs.Terms.{AreTerms};

use crate::goal_texts::{open_goal, whole_goal};
use std::alloc::Global;
use sx_derive::{Blame, Cause};
use sx_rules::{Goal, RuleSet};
use sx_steps::{Stop, about};
use sx_term::{NoMemory, Term, Text};
use sx_words::{Defect, GoalDefect, premise_number};

/// The name of the rule with this number; empty where there is no such rule.
fn rule_name(alloc: Global, rules: &RuleSet, number: u32) -> Result<Text, NoMemory>
    ensures { IfOk result (λ name. name ≡ core_texts.core_rule_name (rules_in rules.now) number) }
{
    match rules.rule(number) {
        Some(rule) => rule.name.copy(alloc),
        None => Text::of_str(alloc, ""),
    }
}

/// No rule concludes the goal.
fn no_rule(alloc: Global, file: &Text, rules: &RuleSet, goal: &Goal) -> Result<Stop, NoMemory>
    requires { AreTerms (map tree goal.now.inputs.items) }
    ensures { IfOk result (λ stop. stop ≡ stuck file.now (forms_in rules.now) (rules_in rules.now)
        (goal_data goal.now) reasons.no_rule) }
{
    let file = file.copy(alloc)?;
    let goal = open_goal(alloc, rules.forms(), goal)?;
    Ok(about(file, Defect::Goal(GoalDefect::NoRule { goal })))
}

/// A premise of a rule finds two terms that are not apart. The premise counts from 0.
fn not_apart(
    alloc: Global,
    file: &Text,
    rules: &RuleSet,
    goal: &Goal,
    rule: u32,
    premise: usize,
) -> Result<Stop, NoMemory>
    requires { AreTerms (map tree goal.now.inputs.items) }
    ensures { IfOk result (λ stop. stop ≡ stuck file.now (forms_in rules.now) (rules_in rules.now)
        (goal_data goal.now) (reasons.unequal rule premise)) }
{
    let file = file.copy(alloc)?;
    let goal = open_goal(alloc, rules.forms(), goal)?;
    let rule = rule_name(alloc, rules, rule)?;
    let premise = premise_number(premise)?;
    let defect = GoalDefect::Equal {
        goal,
        premise,
        rule,
    };
    Ok(about(file, Defect::Goal(defect)))
}

/// The outputs got are not what a premise of a rule asks for. The premise counts from 0.
fn not_asked(
    alloc: Global,
    file: &Text,
    rules: &RuleSet,
    goal: &Goal,
    by: (u32, usize),
    got: &[Term],
) -> Result<Stop, NoMemory>
    requires inputs { AreTerms (map tree goal.now.inputs.items) }
    requires got { AreTerms (map tree got.now) }
    ensures { IfOk result (λ stop. stop ≡ stuck file.now (forms_in rules.now) (rules_in rules.now)
        (goal_data goal.now) (reasons.mismatch (Some by) (map tree got.now))) }
{
    let file = file.copy(alloc)?;
    let goal = whole_goal(alloc, rules.forms(), goal, got)?;
    let (rule, premise) = by;
    let rule = rule_name(alloc, rules, rule)?;
    let premise = premise_number(premise)?;
    let defect = GoalDefect::Mismatch {
        goal,
        premise,
        rule,
    };
    Ok(about(file, Defect::Goal(defect)))
}

/// The outputs got are not the stated ones.
fn not_stated(
    alloc: Global,
    file: &Text,
    rules: &RuleSet,
    goal: &Goal,
    got: &[Term],
) -> Result<Stop, NoMemory>
    requires inputs { AreTerms (map tree goal.now.inputs.items) }
    requires got { AreTerms (map tree got.now) }
    ensures { IfOk result (λ stop. stop ≡ stuck file.now (forms_in rules.now) (rules_in rules.now)
        (goal_data goal.now) (reasons.mismatch None (map tree got.now))) }
{
    let file = file.copy(alloc)?;
    let goal = whole_goal(alloc, rules.forms(), goal, got)?;
    Ok(about(file, Defect::Goal(GoalDefect::NotStated { goal })))
}

/// The goal where the search is stuck, and why.
pub fn stuck_goal(
    alloc: Global,
    file: &Text,
    rules: &RuleSet,
    blame: &Blame,
) -> Result<Stop, NoMemory>
    requires goal { AreTerms (blame_of blame.now).goal.terms }
    requires got { AreTerms (got_in (blame_of blame.now).reason) }
    ensures { IfOk result (λ stop. stop ≡ stuck file.now (forms_in rules.now) (rules_in rules.now)
        (blame_of blame.now).goal (blame_of blame.now).reason) }
{
    match &blame.cause {
        Cause::NoRule => no_rule(alloc, file, rules, &blame.goal),
        Cause::Equal { rule, premise } => not_apart(
            alloc,
            file,
            rules,
            &blame.goal,
            *rule,
            *premise,
        ),
        Cause::Mismatch { by: Some(by), got } => not_asked(
            alloc,
            file,
            rules,
            &blame.goal,
            *by,
            got,
        ),
        Cause::Mismatch { by: None, got } => not_stated(alloc, file, rules, &blame.goal, got),
    }
}
