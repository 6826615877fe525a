//! The first premise of a goal's first candidate that fails.

ghost use Rattle.std.specs.Prelude.{◌≡◌, ◌↔◌, IsTrue, ◌^◌, ◌≤◌, ◌<◌, IfOk, Some, length, map};
ghost use Rattle.sx_term.specs.Term.{tree};
ghost use Rattle.sx_rules.specs.Deep.{AreShallow, RuleIsShallow};
ghost use Rattle.sx_rules.specs.Limits.{most_levels};
ghost use Rattle.sx_rules.specs.Rules.{Hypotheses};
ghost use Rattle.sx_arena.specs.Arena.{AreBelow};
ghost use Rattle.sx_arena.specs.Views.{rule_of, judgement_of};
ghost use Rattle.sx_derive.specs.Descents.{IsPremiseSpot};
ghost use Rattle.sx_derive.specs.Givens.{
  IsStoreOf,
  GrowsIn,
  HasHyps,
  CandidateLeads,
  DescendsTo,
  FailsQuietly,
  FailsQuietlyAt,
};
ghost use Rattle.sx_derive.specs.Store.{store_trees};
ghost use Rattle.sx_derive.specs.Ways.{subject_modes};
ghost use Rattle.sx_derive.specs.declared.descent.Descent.TheVariants.{Stuck};
ghost use Rattle.sx_derive.specs.declared.descent.Reason.TheVariants.{Equal, Mismatch};

use crate::ask::{Asked, ask};
use crate::bound_inputs::bound_premise;
use crate::bounds::Bounds;
use crate::candidate::Candidate;
use crate::descent::{Descent, Reason, Spot};
use crate::given::Given;
use crate::made_places::{made_inputs, made_outputs};
use crate::noted_candidate::NotedCandidate;
use crate::store::Store;
use crate::subject_way::put_premise_way;
use sx_arena::{Chain, instances_apart};
use sx_rules::{Judgement, Premise, Rule, RuleSet};
use sx_term::NoMemory;

/// The goal of a premise with these terms, at its path from that of the rule's goal.
fn premise_spot(
    rules: &RuleSet,
    rule: &Rule,
    premise: &Judgement,
    terms: Vec<usize>,
    spot: Spot,
) -> Result<Spot, NoMemory>
    requires shallow { AreShallow (map tree rule.now.conclusion.places.items) }
    ensures { IfOk result
        (λ s. IsPremiseSpot (subject_modes rules.now) (rule_of rule.now) (judgement_of premise.now)
        terms.items spot.path.items s) }
{
    drop(spot.terms);
    let mut path = spot.path;
    put_premise_way(rules, rule, premise, &mut path)?;
    Ok(Spot {
        form: premise.form,
        terms,
        path,
    })
}

/// The goal is stuck, since two terms are not apart.
fn equal(spot: Spot, rule: u32, premise: usize) -> Descent
    ensures { result ≡ Stuck spot (Equal rule premise) }
{
    Descent::Stuck {
        spot,
        reason: Reason::Equal { rule, premise },
    }
}

/// The goal of a premise is stuck, since its outputs are not those of the premise.
fn differs(spot: Spot, rule: u32, premise: usize, got: Vec<usize>) -> Descent
    ensures { result ≡ Stuck spot (Mismatch (Some (rule, premise)) got) }
{
    Descent::Stuck {
        spot,
        reason: Reason::Mismatch {
            by: Some((rule, premise)),
            got,
        },
    }
}

/// The goal is stuck, since what is got for its outputs is not what is wanted.
fn unwanted(spot: Spot, got: Vec<usize>) -> Descent
    ensures { result ≡ Stuck spot (Mismatch None got) }
{
    Descent::Stuck {
        spot,
        reason: Reason::Mismatch { by: None, got },
    }
}

/// Whether it is the number that is noted.
fn is_noted(noted: Option<usize>, number: usize) -> bool
    ensures { IsTrue result ↔ (noted ≡ Some number) }
{
    match noted {
        Some(it) => it == number,
        None => false,
    }
}

/// Where the premises of a goal's first candidate lead, gone through with first answers. That with
/// the number that is noted has no answer and is not asked.
fn descend_in_order(
    given: &Given,
    store: &mut Store,
    from: NotedCandidate,
    spot: Spot,
    bounds: Bounds,
    notes: &mut Vec<usize>,
) -> Result<Descent, NoMemory>
    requires few { length given.now.facts.now < 2 ^ 32 }
    requires store { IsStoreOf given.now store.old }
    requires shallow { RuleIsShallow (rule_of from.candidate.rule.now) }
    requires env { from.candidate.env ≤ length store.old.binds.cells.items }
    requires terms { AreBelow (length (store_trees store.old)) spot.terms.items }
    requires levels { bounds.levels < most_levels }
    requires quiet { FailsQuietlyAt given.now bounds store.old from notes.old.items }
    ensures grows { IfOk result (λ _. GrowsIn given.now store.old store.new) }
    ensures descent { IfOk result (λ d. (hyps : Hypotheses) → HasHyps given.now store.old hyps →
        DescendsTo given.now hyps bounds store.new notes.new.items
        (CandidateLeads given.now hyps bounds store.old spot from.entry.candidate) d) }
{
    given.rules.facts();
    let rule = from.candidate.rule;
    let mut env = from.candidate.env;
    let pairs = given.pairs;
    for k in 0..rule.premises.len() {
        match &rule.premises[k] {
            Premise::Apart(one, other) => {
                let chain = Chain {
                    binds: &store.binds,
                    env,
                };
                if !instances_apart(given.alloc, &mut store.arena, &chain, pairs, one, other)? {
                    return Ok(equal(spot, from.candidate.number, k));
                }
            }
            Premise::Holds(judgement) => {
                if is_noted(from.noted, k) {
                    let terms = made_inputs(given, store, judgement, env)?;
                    let kid = premise_spot(given.rules, rule, judgement, terms, spot)?;
                    return Ok(Descent::Below(kid));
                }
                match ask(given, store, judgement, env, bounds)? {
                    Asked::Matched(next) => env = next,
                    Asked::Unanswered { terms, further } => {
                        *notes = further;
                        let kid = premise_spot(given.rules, rule, judgement, terms, spot)?;
                        return Ok(Descent::Below(kid));
                    }
                    Asked::Differs { terms, got } => {
                        let kid = premise_spot(given.rules, rule, judgement, terms, spot)?;
                        return Ok(differs(kid, from.candidate.number, k, got));
                    }
                }
            }
        }
    }
    let got = made_outputs(given, store, &rule.conclusion, env)?;
    Ok(unwanted(spot, got))
}

/// Where the premises of a goal's first candidate lead. The last note is the number of the premise
/// without an answer; it is taken off. Where the candidate's chain binds all variables of that
/// premise's inputs, no premise is asked.
pub(crate) fn descend_premises(
    given: &Given,
    store: &mut Store,
    candidate: &Candidate,
    spot: Spot,
    bounds: Bounds,
    notes: &mut Vec<usize>,
) -> Result<Descent, NoMemory>
    requires few { length given.now.facts.now < 2 ^ 32 }
    requires store { IsStoreOf given.now store.old }
    requires shallow { RuleIsShallow (rule_of candidate.now.rule.now) }
    requires env { candidate.now.env ≤ length store.old.binds.cells.items }
    requires terms { AreBelow (length (store_trees store.old)) spot.terms.items }
    requires levels { bounds.levels < most_levels }
    requires quiet { FailsQuietly given.now bounds store.old candidate.now notes.old.items }
    ensures grows { IfOk result (λ _. GrowsIn given.now store.old store.new) }
    ensures descent { IfOk result (λ d. (hyps : Hypotheses) → HasHyps given.now store.old hyps →
        DescendsTo given.now hyps bounds store.new notes.new.items
        (CandidateLeads given.now hyps bounds store.old spot candidate.now) d) }
{
    given.rules.facts();
    let rule = candidate.rule;
    let noted = notes.pop();
    match bound_premise(given, store, &rule.premises, candidate.env, noted) {
        Some(judgement) => {
            let terms = made_inputs(given, store, judgement, candidate.env)?;
            let kid = premise_spot(given.rules, rule, judgement, terms, spot)?;
            Ok(Descent::Below(kid))
        }
        None => {
            let from = NotedCandidate {
                candidate: *candidate,
                noted,
            };
            descend_in_order(given, store, from, spot, bounds, notes)
        }
    }
}
