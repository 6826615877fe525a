//! Derivations from a hypothesis, by the plain rules of a language with extensions: they are
//! expanded as lists, made in boxes from these, and rewritten in boxes.

ghost use Rattle.std.specs.Prelude.{◌≡◌, ◌≤◌, List, [], true, IfSome, map};
ghost use Rattle.sx_term.specs.Shapes.{shapes};
ghost use Rattle.sx_term.specs.Term.{tree};
ghost use Rattle.sx_term.specs.Tree.{Tree, depth_of};
ghost use Rattle.sx_rules.specs.Deep.{AreShallow};
ghost use Rattle.sx_rules.specs.Derivations as spec;
ghost use Rattle.sx_rules.specs.Derivations.{HasShallowBinds, ShallowJudgements};
ghost use Rattle.sx_rules.specs.EntryView.{entries};
ghost use Rattle.sx_rules.specs.ProofView as view;
ghost use Rattle.sx_rules.specs.Sets.{bare_rules_in, forms_in, shapes_in};
ghost use Rattle.sx_rules.specs.Sorts.{GoalIsSorted};
ghost use Rattle.sx_rules.specs.Views.{goal as goal_of, hypotheses, judgement};
ghost use Rattle.sx_rewrite.specs.AcceptedView.{accepted, signature};
ghost use Rattle.sx_rewrite.specs.PlainRules.{plain_of};
ghost use Rattle.sx_expand.specs.Boxes.{HasList};
ghost use Rattle.sx_expand.specs.Expansions.{HasOneSubject, IsListedFrom};
ghost use Rattle.tests_uses.specs.Held.{FitPlaces, IsHypothesisHeld};

use crate::asserts::assert_same;
use crate::expanded::{Asked, MOST, Told, both, same_terms, tell_asked};
use crate::goals::{one_goal, term};
use std::alloc::Global;
use std::sync::ledger::Ledger;
use sx_derive::{derive, derive_list};
use sx_expand::{Expanded, derivation_of, expand_open};
use sx_rewrite::{Accepted, Lowered, RewriteError, rewrite_open};
use sx_rules::{Entry, Hyps, Judgement, Place, Proof, RuleSet};
use sx_term::{Shapes, Steps, Term};

/// Whether the derivations are equal.
fn same_proof(one: &Proof, other: &Proof) -> bool
    requires one { HasShallowBinds (view.proof one.now) }
    requires other { HasShallowBinds (view.proof other.now) }
{
    match (one, other) {
        (
            Proof::By { rule, binds, kids },
            Proof::By {
                rule: number,
                binds: terms,
                kids: others,
            },
        ) => {
            let own = kids.as_slice();
            let theirs = others.as_slice();
            if *rule != *number || own.len() != theirs.len() || !same_terms(binds, terms) {
                return false;
            }
            for i in 0..own.len() {
                if !same_proof(&own[i], &theirs[i]) {
                    return false;
                }
            }
            true
        }
        (Proof::Given(number), Proof::Given(given)) => *number == *given,
        _ => false,
    }
}

/// Whether the derivation that has the list is the one in boxes.
fn is_certified(
    alloc: Global,
    set: &Accepted,
    given: &Hyps,
    one: &Expanded,
    other: &Lowered,
) -> bool
    requires given { ShallowJudgements (hypotheses given.now).judgements }
    requires places { AreShallow (judgement one.now.judgement).places }
    requires listed { (p : spec.Proof) × HasList (bare_rules_in set.now.base) (hypotheses given.now)
        (judgement one.now.judgement) (entries one.now.entries.items) p × HasShallowBinds p }
    requires boxed { HasShallowBinds (view.proof other.now.proof.value) }
{
    let rules = set.base_rules();
    match derivation_of(alloc, rules, given, &one.judgement, &one.entries) {
        Ok(proof) => {
            let same = same_proof(&proof, &other.proof);
            drop(proof);
            same
        }
        Err(_) => false,
    }
}

/// What the two answers tell of the derivation with this list.
fn compare(
    alloc: Global,
    set: &Accepted,
    asked: Asked,
    given: &Hyps,
    list: &[Entry],
    proof: &Proof,
) -> Told
    requires shallow { AreShallow (goal_of asked.goal.now).terms }
    requires one { HasOneSubject (forms_in set.now.base) asked.goal.now.form }
    requires sorted { GoalIsSorted (shapes_in set.now.rules) (signature set.now).forms
        (signature set.now).modes [] (goal_of asked.goal.now) }
    requires held { IsHypothesisHeld set.now.base given.now }
    requires lowered { depth_of (tree asked.lowered.now) ≤ 1000 }
    requires listed { (outs : List Tree) × IsListedFrom (signature set.now).modes
        (plain_of (accepted set.now)) (hypotheses given.now) (goal_of asked.goal.now)
        (entries list.now) (view.proof proof.now, outs) }
{
    set.facts();
    let expanded = expand_open(alloc, set, asked.goal, list, given, asked.nodes);
    let rewritten = rewrite_open(alloc, set, proof, given, asked.nodes);
    let told = match &expanded {
        Ok(one) => match &rewritten {
            Ok(other) => {
                if is_certified(alloc, set, given, one, other) {
                    both(alloc, one, other, asked.lowered)
                } else {
                    Told::Other
                }
            }
            Err(_) => Told::Other,
        },
        Err(RewriteError::RewriteSpent(nodes)) => match &rewritten {
            Err(RewriteError::RewriteSpent(others)) if *nodes == *others => Told::Spent(*nodes),
            _ => Told::Other,
        },
        Err(_) => Told::Other,
    };
    drop(expanded);
    drop(rewritten);
    told
}

/// What the two answers tell of the derivation that is found by the plain rules.
fn tell<L: Ledger>(
    alloc: Global,
    set: &Accepted,
    asked: Asked,
    given: &Hyps,
    steps: &mut Steps<L>,
) -> Told
    requires shallow { AreShallow (goal_of asked.goal.now).terms }
    requires one { HasOneSubject (forms_in set.now.base) asked.goal.now.form }
    requires sorted { GoalIsSorted (shapes_in set.now.rules) (signature set.now).forms
        (signature set.now).modes [] (goal_of asked.goal.now) }
    requires held { IsHypothesisHeld set.now.base given.now }
    requires lowered { depth_of (tree asked.lowered.now) ≤ 1000 }
{
    set.facts();
    let rules = set.plain_rules();
    let listed = derive_list(alloc, rules, given, asked.goal, None, MOST, steps);
    let derived = derive(alloc, rules, given, asked.goal, None, MOST, steps);
    let told = match &listed {
        Ok(listed) => match &derived {
            Ok(derived) => compare(alloc, set, asked, given, &listed.entries, &derived.proof),
            Err(_) => Told::Unasked,
        },
        Err(_) => Told::Unasked,
    };
    drop(listed);
    drop(derived);
    told
}

/// Whether the terms have the sorts of the places, and none passes a limit.
fn places_fit(all: &Shapes, places: &[Place], terms: &[Term]) -> bool
    requires { AreShallow (map tree terms.now) }
    ensures { result ≡ true → FitPlaces (shapes all.now) places.now terms.now }
{
    if terms.len() != places.len() {
        return false;
    }
    for i in 0..terms.len() {
        let term = &terms[i];
        if !all.fits(term, &[], places[i].sort) || term.size() > 1_000_000 {
            return false;
        }
    }
    true
}

/// Whether there is one hypothesis, which is base and has a term within the limits for each place.
fn is_held(base: &RuleSet, given: &Hyps) -> bool
    requires { ShallowJudgements (hypotheses given.now).judgements }
    ensures { result ≡ true → IsHypothesisHeld base.now given.now }
{
    let holds = given.holds.as_slice();
    let apart = given.apart.as_slice();
    match holds {
        [it] => {
            if !apart.is_empty() {
                return false;
            }
            places_fit(base.shapes(), base.places_of(it.form), &it.places)
        }
        _ => false,
    }
}

/// What the two answers tell of the goal from the hypothesis.
pub(crate) fn tell_open<L: Ledger>(
    alloc: Global,
    set: &Accepted,
    asked: Asked,
    given: &Hyps,
    steps: &mut Steps<L>,
) -> Told
    requires shallow { AreShallow (goal_of asked.goal.now).terms }
    requires one { HasOneSubject (forms_in set.now.base) asked.goal.now.form }
    requires sorted { GoalIsSorted (shapes_in set.now.rules) (signature set.now).forms
        (signature set.now).modes [] (goal_of asked.goal.now) }
    requires given { ShallowJudgements (hypotheses given.now).judgements }
    requires lowered { depth_of (tree asked.lowered.now) ≤ 1000 }
{
    if is_held(set.base_rules(), given) {
        tell(alloc, set, asked, given, steps)
    } else {
        Told::Unasked
    }
}

/// The hypothesis that the subject has the second type of the language, in the first environment.
fn hypothesis(alloc: Global, subject: &str) -> Option<Hyps>
    ensures { IfSome result (λ h. ShallowJudgements (hypotheses h).judgements) }
{
    let first = term(alloc, "(0)")?;
    let subject = term(alloc, subject)?;
    let last = term(alloc, "(2)")?;
    let mut places = Vec::new(alloc);
    places.push(first).ok()?;
    places.push(subject).ok()?;
    places.push(last).ok()?;
    let mut holds = Vec::new(alloc);
    holds.push(Judgement { form: 0, places }).ok()?;
    Some(Hyps {
        holds,
        apart: Vec::new(alloc),
    })
}

/// What the two answers tell of the subject's type from that of its part, where the subject is
/// lowered to this one.
fn told_from(alloc: Global, subject: &str, part: &str, lowered: &str, nodes: u64) -> Option<Told> {
    let goal = one_goal(alloc, subject)?;
    let given = hypothesis(alloc, part)?;
    let lowered = term(alloc, lowered)?;
    let asked = Asked {
        goal: &goal,
        given: Some(&given),
        lowered: &lowered,
        nodes,
    };
    tell_asked(alloc, asked)
}

// The number is lowered to the hypothesis, 9. The double of it has the entries 1 9 9, and one copy;
// the threefold of that has 1 1, three times these, and two copies of three nodes more.
#[test]
fn a_list_is_expanded_from_a_hypothesis(rt: HostRuntime) {
    let alloc = rt.alloc();
    let subject = "(6 (5 (3 n1:7)))";
    let part = "(3 n1:7)";
    let lowered = "(4 (4 (4 (3 n1:7) (3 n1:7)) (4 (3 n1:7) (3 n1:7))) (4 (3 n1:7) (3 n1:7)))";
    let hold = [
        told_from(alloc, subject, part, lowered, 11) == Some(Told::Alike(11_199_199_199, 7)),
        told_from(alloc, subject, part, lowered, 10) == Some(Told::Spent(10)),
        told_from(alloc, subject, "(5 (3 n1:7))", lowered, 11) == Some(Told::Unasked),
    ];
    assert_same(&rt, &hold, &[true; 3]);
}
