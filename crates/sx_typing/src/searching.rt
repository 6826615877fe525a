//! The goal of a source, and its first derivation.

ghost use Rattle.std.specs.Prelude.{◌≡◌, ◌<◌, ◌≤◌, ◌++◌, None, length, map, IfOk};
ghost use Rattle.sx_term.specs.Term.{tree};
ghost use Rattle.sx_term.specs.Tree.{depth_of};
ghost use Rattle.sx_rules.specs.Deep.{AreShallow};
ghost use Rattle.sx_rules.specs.Sets.{forms_in, rules_in};
ghost use Rattle.sx_rules.specs.Views.{goal as goal_of, modes_of, subjects_in};
ghost use Rattle.sx_derive.specs.Deriving.{AreCounted};
ghost use Rattle.sx_derive.specs.Listing.{IsListed};
ghost use Rattle.sx_derive.specs.Search.{tries_of};
ghost use Rattle.sx_derive.specs.Walk.{events};
ghost use Rattle.sx_typing.specs.MainGoals.{input_at, main_terms, main_goal};
ghost use Rattle.sx_typing.specs.Outcomes.{nameless};
ghost use Rattle.sx_rules.specs.Rules.{no_hypotheses};
ghost use Rattle.sx_term.specs.Limits.{most_depth};

use std::alloc::Global;
use std::sync::ledger::Ledger;
use sx_derive::{DeriveError, Listed, derive_list};
use sx_notation::Language;
use sx_rules::{Goal, Hyps, Place, RuleSet};
use sx_term::{NoMemory, Role, Steps, Term};

/// Adds what stands at a place with this role: the environment, the subject, or nothing.
fn add_term(
    alloc: Global,
    role: Role,
    environment: &Term,
    subject: &Term,
    into: &mut Vec<Term>,
) -> Result<(), NoMemory>
    requires environment { depth_of (tree environment.now) ≤ most_depth }
    requires subject { depth_of (tree subject.now) ≤ most_depth }
    ensures { IfOk result (λ x. map tree into.new.items ≡ map tree into.old.items ++ input_at
        (tree environment.now) (tree subject.now) role) }
{
    match role {
        Role::In => into.push(environment.copy(alloc)?)?,
        Role::Sub => into.push(subject.copy(alloc)?)?,
        Role::Out => {}
    }
    Ok(())
}

/// The terms of a goal whose form has these places.
fn main_terms(
    alloc: Global,
    places: &[Place],
    environment: &Term,
    subject: &Term,
) -> Result<Vec<Term>, NoMemory>
    requires environment { depth_of (tree environment.now) ≤ most_depth }
    requires subject { depth_of (tree subject.now) ≤ most_depth }
    ensures { IfOk result (λ v. map tree v.items ≡ main_terms places.now (tree environment.now)
        (tree subject.now)) }
{
    let mut terms = Vec::with_capacity(alloc, 2)?;
    for i in 0..places.len() {
        let place = &places[i];
        add_term(alloc, place.role, environment, subject, &mut terms)?;
    }
    Ok(terms)
}

/// The goal of the main form with this environment and this subject.
pub fn main_goal(
    alloc: Global,
    language: &Language,
    environment: &Term,
    subject: &Term,
) -> Result<Goal, NoMemory>
    requires form { language.now.main.form < length (forms_in language.now.rules) }
    requires environment { depth_of (tree environment.now) ≤ most_depth }
    requires subject { depth_of (tree subject.now) ≤ most_depth }
    ensures { IfOk result (λ g.
        goal_of g ≡ main_goal (forms_in language.now.rules) language.now.main.form
        (tree environment.now) (tree subject.now)) }
{
    let form = language.main.form;
    let places = &language.rules.forms()[form as usize].places;
    let inputs = main_terms(alloc, places, environment, subject)?;
    Ok(Goal { form, inputs })
}

/// The list of the first derivation of the goal by the rules alone, and its outputs, or why there
/// is none. At most `tries` tries are made.
pub(crate) fn find_derivation<L: Ledger>(
    alloc: Global,
    rules: &RuleSet,
    goal: &Goal,
    tries: u64,
    steps: &mut Steps<L>,
) -> Result<Listed, DeriveError>
    requires { AreShallow (goal_of goal.now).terms }
    ensures answer { IsListed (modes_of (forms_in rules.now)) (subjects_in (forms_in rules.now))
        (nameless (rules_in rules.now)) no_hypotheses (goal_of goal.now) None tries result }
    ensures steps { AreCounted
        (tries_of None tries (events (modes_of (forms_in rules.now))
        (nameless (rules_in rules.now)) no_hypotheses (goal_of goal.now) 1)) steps.old steps.new
        result }
{
    let given = Hyps::none(alloc);
    derive_list(alloc, rules, &given, goal, None, tries, steps)
}
