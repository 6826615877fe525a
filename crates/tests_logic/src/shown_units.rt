//! Derivations that are shown one after another, each as the list of a unit.

ghost use Rattle.std.specs.Prelude.{◌≡◌, ◌<◌};
ghost use Rattle.sx_rules.specs.Deep.{AreShallow};
ghost use Rattle.sx_rules.specs.Derivations.{Derives};
ghost use Rattle.sx_rules.specs.ProofView as view;
ghost use Rattle.sx_rules.specs.Rules.{Judgement, no_hypotheses};
ghost use Rattle.sx_rules.specs.Sets.{bare_rules_in};
ghost use Rattle.sx_rules.specs.Views.{goal as goal_of};

use crate::asserts::assert_same;
use crate::auditors::boxed;
use crate::samples::{PAIR, W, Z, rules};
use crate::shown::is_shallow;
use crate::terms::goal;
use std::alloc::Global;
use std::marker::Brand;
use std::sync::ledger::{Blank, Ledger};
use sx_audit::Auditor;
use sx_auditing::show_unit;
use sx_derive::derive;
use sx_rules::{Goal, Hyps, Proof, RuleSet, preorder};
use sx_steps::StepError;
use sx_term::{Steps, Text};
use sx_words::Defect;
use tests_given::Stop;

/// The number of the node by this rule to which the auditor of this name objects; 0 where none
/// objects, and the greatest number where it is another objection or memory is lacking.
fn objected(shown: &Result<(), StepError>, name: &str, by: &str) -> u64 {
    match shown {
        Ok(()) => 0,
        Err(StepError::Memory) => u64::MAX,
        Err(StepError::Stopped(stop)) => match &stop.refusal.defect {
            Defect::Objected {
                auditor,
                node,
                rule,
            } => {
                if auditor.as_str() == name && rule.as_str() == by {
                    *node
                } else {
                    u64::MAX
                }
            }
            _ => u64::MAX,
        },
    }
}

/// Shows the derivation of the file by its list, and tells the number of the node to which `stop`
/// objects.
fn show_proof(
    alloc: Global,
    file: &Text,
    auditors: &mut Vec<Box<dyn Auditor>>,
    rules: &RuleSet,
    proof: &Proof,
) -> u64
    requires { (j : Judgement)
        × Derives (bare_rules_in rules.now) no_hypotheses j (view.proof proof.now) }
{
    if !is_shallow(proof, 3000) {
        return u64::MAX;
    }
    match preorder(alloc, proof) {
        Ok(list) => {
            let shown = show_unit(alloc, file, auditors, rules, &list);
            drop(list);
            let told = objected(&shown, "stop", "Z");
            drop(shown);
            told
        }
        Err(_) => u64::MAX,
    }
}

/// The same of `A.mod`.
fn show_file(
    alloc: Global,
    auditors: &mut Vec<Box<dyn Auditor>>,
    rules: &RuleSet,
    proof: &Proof,
) -> u64
    requires { (j : Judgement)
        × Derives (bare_rules_in rules.now) no_hypotheses j (view.proof proof.now) }
{
    match Text::of_str(alloc, "A.mod") {
        Ok(file) => {
            let told = show_proof(alloc, &file, auditors, rules, proof);
            drop(file);
            told
        }
        Err(_) => u64::MAX,
    }
}

/// What is told of two derivations one after the other.
fn two_shown(alloc: Global, rules: &RuleSet, one: &Proof, other: &Proof) -> [u64; 2]
    requires one { (j : Judgement)
        × Derives (bare_rules_in rules.now) no_hypotheses j (view.proof one.now) }
    requires other { (j : Judgement)
        × Derives (bare_rules_in rules.now) no_hypotheses j (view.proof other.now) }
{
    match boxed(alloc, Stop::new(alloc)) {
        Some(made) => {
            let stop: Box<dyn Auditor> = made;
            match Vec::from_array(alloc, [stop]) {
                Ok(made) => {
                    let mut row = made;
                    let first = show_file(alloc, &mut row, rules, one);
                    let second = show_file(alloc, &mut row, rules, other);
                    drop(row);
                    [first, second]
                }
                Err(_) => [u64::MAX; 2],
            }
        }
        None => [u64::MAX; 2],
    }
}

/// What is told of the first derivations of the goals.
fn goals_shown<L: Ledger>(
    alloc: Global,
    rules: &RuleSet,
    one: &Goal,
    other: &Goal,
    blank: Blank,
) -> [u64; 2]
    requires name { blank.name ≡ L.name }
    requires parts { blank.parts ≡ L.parts }
    requires some { 0 < blank.parts }
    requires one { AreShallow (goal_of one.now).terms }
    requires other { AreShallow (goal_of other.now).terms }
{
    let given = Hyps::none(alloc);
    let mut steps = Steps::<L>::new(blank);
    let first = derive(alloc, rules, &given, one, None, 100, &mut steps);
    let second = derive(alloc, rules, &given, other, None, 100, &mut steps);
    drop(given);
    let told = match (&first, &second) {
        (Ok(a), Ok(b)) => two_shown(alloc, rules, &a.proof, &b.proof),
        _ => [u64::MAX; 2],
    };
    drop(second);
    drop(first);
    told
}

/// What is told of the term 0, and then of the pair of 0 and 1.
fn pair_is_shown(alloc: Global, rules: &RuleSet) -> [u64; 2] {
    let one = goal(alloc, "(0)");
    let other = goal(alloc, "(3 (0) (1))");
    let told = match (&one, &other) {
        (Some(one), Some(other)) => {
            goals_shown::<Brand>(alloc, rules, one, other, Blank::new(1))
        }
        _ => [u64::MAX; 2],
    };
    drop(other);
    drop(one);
    told
}

/// The same by the rules for two terms and pairs.
fn pair_is_shown_by_rules(alloc: Global) -> [u64; 2] {
    match rules(alloc, Z, W, PAIR) {
        Some(rules) => {
            let told = pair_is_shown(alloc, &rules);
            drop(rules);
            told
        }
        None => [u64::MAX; 2],
    }
}

#[test]
fn the_third_node_is_the_second_of_its_unit(rt: HostRuntime) {
    assert_same(&rt, &pair_is_shown_by_rules(rt.alloc()), &[0, 2]);
}
