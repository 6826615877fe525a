//! The first candidate of a goal, and where it leads.

ghost use Rattle.std.specs.Prelude.{suc, ◌^◌, ◌<◌, ◌↔◌, IsTrue, IfOk, length};
ghost use Rattle.std.specs.Option.{option_map};
ghost use Rattle.sx_rules.specs.Deep.{RuleIsShallow};
ghost use Rattle.sx_rules.specs.Limits.{most_levels};
ghost use Rattle.sx_rules.specs.Rules.{Hypotheses};
ghost use Rattle.sx_arena.specs.Arena.{AreBelow};
ghost use Rattle.sx_arena.specs.Binds.{IsChainFit};
ghost use Rattle.sx_arena.specs.Views.{rules_of, set_modes, rule_of};
ghost use Rattle.sx_derive.specs.Candidates.{goal_in};
ghost use Rattle.sx_derive.specs.Descents.{IsFirstRule, HasInputs, IsFirstFact};
ghost use Rattle.sx_derive.specs.Givens.{
  IsStoreOf,
  GrowsIn,
  HasHyps,
  events_by,
  rules_events_by,
  RulesFailBy,
  GoalFails,
  GoalLeads,
  IsStuckBy,
  DescendsTo,
};
ghost use Rattle.sx_derive.specs.Quiet.{IsQuiet};
ghost use Rattle.sx_derive.specs.Store.{IsStore, StoreGrows, store_trees};
ghost use Rattle.sx_derive.specs.Stuck.{rule_match};

use crate::bounds::Bounds;
use crate::candidate::Candidate;
use crate::descent::{Descent, Reason, Spot};
use crate::given::Given;
use crate::premise_descent::descend_premises;
use crate::store::Store;
use sx_arena::{Fact, Side, copied, fit_places, rule_at, same_numbers};
use sx_rules::{Rule, RuleSet};
use sx_term::NoMemory;

/// Whether the fact is of the form and has the inputs.
fn has_inputs(fact: &Fact, form: u32, terms: &[usize]) -> bool
    ensures { IsTrue result ↔ HasInputs form terms.now fact.now }
{
    if fact.form != form {
        return false;
    }
    same_numbers(&fact.inputs, terms)
}

/// The first fact of the form with the inputs.
pub(crate) fn first_fact<'a>(facts: &'a [Fact], form: u32, terms: &[usize]) -> Option<&'a Fact>
    ensures { IsFirstFact form terms.entry.now facts.entry.now (option_map (λ f. f.now) result) }
{
    for i in 0..facts.len() {
        let fact = &facts[i];
        if has_inputs(fact, form, terms) {
            return Some(fact);
        }
    }
    None
}

/// The chain under which the rule's inputs are the terms, where the rule is of the form.
fn rule_fit(
    rules: &RuleSet,
    rule: &Rule,
    store: &mut Store,
    form: u32,
    terms: &[usize],
) -> Result<Option<usize>, NoMemory>
    requires shallow { RuleIsShallow (rule_of rule.now) }
    requires store { IsStore (set_modes rules.now) (rules_of rules.now) store.old }
    requires terms { AreBelow (length (store_trees store.old)) terms.now }
    ensures grows { IfOk result
        (λ _. StoreGrows (set_modes rules.now) (rules_of rules.now) store.old store.new) }
    ensures fit { IfOk result
        (λ x. IsChainFit (store_trees store.new) store.new.binds
        (rule_match (set_modes rules.now) (rule_of rule.now)
        (goal_in store.old form terms.now)) x) }
{
    if rule.conclusion.form != form {
        return Ok(None);
    }
    let side = Side::new(rules, &rule.conclusion, false);
    fit_places(&store.arena, &mut store.binds, 0, &side, terms)
}

/// The first rule of the form whose inputs match the terms, and the chain that states the match.
pub(crate) fn first_rule(
    rules: &RuleSet,
    store: &mut Store,
    form: u32,
    terms: &[usize],
) -> Result<Option<(u32, usize)>, NoMemory>
    requires store { IsStore (set_modes rules.now) (rules_of rules.now) store.old }
    requires terms { AreBelow (length (store_trees store.old)) terms.now }
    ensures grows { IfOk result
        (λ _. StoreGrows (set_modes rules.now) (rules_of rules.now) store.old store.new) }
    ensures first { IfOk result
        (λ x. IsFirstRule (set_modes rules.now) store.new (goal_in store.old form terms.now) 0
        (rules_of rules.now) x) }
{
    rules.facts();
    let mut number: u32 = 0;
    while let Some(rule) = rules.rule(number) {
        match rule_fit(rules, rule, store, form, terms)? {
            Some(env) => return Ok(Some((number, env))),
            None => number += 1,
        }
    }
    Ok(None)
}

/// Where the rules lead from a goal that is no hypothesis, along the notes.
fn descend_rules(
    given: &Given,
    store: &mut Store,
    spot: Spot,
    bounds: Bounds,
    notes: &mut Vec<usize>,
) -> Result<Descent, NoMemory>
    requires few { length given.now.facts.now < 2 ^ 32 }
    requires store { IsStoreOf given.now store.old }
    requires terms { AreBelow (length (store_trees store.old)) spot.terms.items }
    requires levels { bounds.levels < most_levels }
    requires quiet { (hyps : Hypotheses) × HasHyps given.now store.old hyps
        × IsQuiet bounds.budget (rules_events_by given.now hyps bounds.levels store.old spot)
        × RulesFailBy given.now hyps bounds.levels store.old spot notes.old.items }
    ensures grows { IfOk result (λ _. GrowsIn given.now store.old store.new) }
    ensures descent { IfOk result (λ d. (hyps : Hypotheses) → HasHyps given.now store.old hyps →
        DescendsTo given.now hyps bounds store.new notes.new.items
        (GoalLeads given.now hyps bounds store.old spot) d) }
{
    let rules = given.rules;
    rules.facts();
    match first_rule(rules, store, spot.form, &spot.terms)? {
        None => Ok(Descent::Stuck {
            spot,
            reason: Reason::NoRule,
        }),
        Some((number, env)) => {
            let rule = rule_at(rules, number);
            let candidate = Candidate { rule, number, env };
            descend_premises(given, store, &candidate, spot, bounds, notes)
        }
    }
}

/// Where a goal leads that has no answer, or none that is wanted. The notes say which premises have
/// no answer, the goal's own the last; those that are left are of the goal below.
pub(crate) fn descend(
    given: &Given,
    store: &mut Store,
    spot: Spot,
    bounds: Bounds,
    notes: &mut Vec<usize>,
) -> Result<Descent, NoMemory>
    requires few { length given.now.facts.now < 2 ^ 32 }
    requires store { IsStoreOf given.now store.old }
    requires terms { AreBelow (length (store_trees store.old)) spot.terms.items }
    requires levels { bounds.levels < most_levels }
    requires quiet { (hyps : Hypotheses) × HasHyps given.now store.old hyps
        × IsQuiet bounds.budget (events_by given.now hyps (suc bounds.levels) store.old spot)
        × GoalFails given.now hyps (suc bounds.levels) store.old spot notes.old.items }
    ensures grows { IfOk result (λ _. GrowsIn given.now store.old store.new) }
    ensures descent { IfOk result (λ d. (hyps : Hypotheses) → HasHyps given.now store.old hyps →
        DescendsTo given.now hyps bounds store.new notes.new.items
        (IsStuckBy given.now hyps (suc bounds.levels) store.old spot) d) }
{
    given.rules.facts();
    match first_fact(given.facts, spot.form, &spot.terms) {
        Some(fact) => {
            let got = copied(given.alloc, &fact.outputs)?;
            Ok(Descent::Stuck {
                spot,
                reason: Reason::Mismatch { by: None, got },
            })
        }
        None => descend_rules(given, store, spot, bounds, notes),
    }
}
