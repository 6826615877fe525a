//! A derivation that is shown, in its boxes and as the list of its entries.

ghost use Rattle.std.specs.Prelude.{◌≡◌, ◌≤◌, ◌<◌, IsTrue, MatchOption};
ghost use Rattle.sx_rules.specs.Deep.{AreShallow};
ghost use Rattle.sx_rules.specs.Derivations.{Derives, height_of};
ghost use Rattle.sx_rules.specs.EntryView.{entries};
ghost use Rattle.sx_rules.specs.Orders.{order_of};
ghost use Rattle.sx_rules.specs.ProofView as view;
ghost use Rattle.sx_rules.specs.Rules.{Judgement, no_hypotheses};
ghost use Rattle.sx_rules.specs.Sets.{bare_rules_in};
ghost use Rattle.sx_rules.specs.Views.{goal as goal_of};

use crate::asserts::assert_same;
use crate::auditors::{boxed, says, takes};
use crate::samples::{PAIR, W, Z, rules};
use crate::terms::goal;
use std::alloc::Global;
use std::marker::Brand;
use std::sync::ledger::{Blank, Ledger};
use sx_audit::{Auditor, ShowError, derivations_are_by_rules, makers, show, show_list};
use sx_derive::derive;
use sx_rules::{Entry, Goal, Hyps, Proof, RuleSet, preorder};
use sx_term::Steps;
use tests_given::Stop;

/// Whether the derivation is no deeper than so many levels.
pub(crate) fn is_shallow(proof: &Proof, levels: u32) -> bool
    ensures { IsTrue result → height_of (view.proof proof.now) ≤ levels }
{
    if levels == 0 {
        return false;
    }
    match proof {
        Proof::By {
            rule: _,
            binds: _,
            kids,
        } => {
            for kid in kids {
                if !is_shallow(kid, levels - 1) {
                    return false;
                }
            }
            true
        }
        Proof::Given(_) => true,
    }
}

/// The number of the node to which the auditor of this name objects; 0 where none does, and the
/// greatest number where another does or memory is lacking.
fn objected(shown: &Result<(), ShowError>, name: &str) -> u64 {
    match shown {
        Ok(()) => 0,
        Err(ShowError::Memory) => u64::MAX,
        Err(ShowError::Objected(who, number)) => {
            if who.as_str() == name {
                *number
            } else {
                u64::MAX
            }
        }
    }
}

/// Shows the derivation, by its list where that is handed over.
fn show_it(
    alloc: Global,
    auditors: &mut Vec<Box<dyn Auditor>>,
    rules: &RuleSet,
    proof: &Proof,
    list: Option<&[Entry]>,
) -> Result<(), ShowError>
    requires height { height_of (view.proof proof.now) ≤ 3000 }
    requires derived { (j : Judgement)
        × Derives (bare_rules_in rules.now) no_hypotheses j (view.proof proof.now) }
    requires order { MatchOption list Unit
        (λ l. entries l.now ≡ order_of (view.proof proof.now)) }
{
    derivations_are_by_rules();
    match list {
        Some(list) => show_list(alloc, auditors, rules, list),
        None => show(alloc, auditors, rules, proof),
    }
}

/// Whether the first auditor takes the setting.
fn first_takes(alloc: Global, row: &mut Vec<Box<dyn Auditor>>, setting: &str) -> bool {
    match row.get_mut(0) {
        Some(first) => takes(alloc, first, setting, true),
        None => false,
    }
}

/// Shows the derivation to the auditors. The number of the node to which the auditor of this name
/// objects; the greatest number where that one or memory is lacking.
fn objected_in(
    alloc: Global,
    row: &mut Vec<Box<dyn Auditor>>,
    name: &str,
    rules: &RuleSet,
    proof: &Proof,
    list: Option<&[Entry]>,
) -> u64
    requires height { height_of (view.proof proof.now) ≤ 3000 }
    requires derived { (j : Judgement)
        × Derives (bare_rules_in rules.now) no_hypotheses j (view.proof proof.now) }
    requires order { MatchOption list Unit
        (λ l. entries l.now ≡ order_of (view.proof proof.now)) }
{
    let shown = show_it(alloc, row, rules, proof, list);
    let number = objected(&shown, name);
    drop(shown);
    number
}

/// Whether this is the text of the auditor with this number.
fn says_at(alloc: Global, row: &[Box<dyn Auditor>], number: usize, wanted: &[u8]) -> bool {
    match row.get(number) {
        Some(auditor) => says(alloc, auditor, wanted),
        None => false,
    }
}

/// Whether an auditor between two others stops at the third node.
fn stops(alloc: Global, rules: &RuleSet, proof: &Proof, list: Option<&[Entry]>) -> bool
    requires height { height_of (view.proof proof.now) ≤ 3000 }
    requires derived { (j : Judgement)
        × Derives (bare_rules_in rules.now) no_hypotheses j (view.proof proof.now) }
    requires order { MatchOption list Unit
        (λ l. entries l.now ≡ order_of (view.proof proof.now)) }
{
    match (
        boxed(alloc, makers::tally(alloc)),
        boxed(alloc, Stop::new(alloc)),
        boxed(alloc, makers::nodes(alloc)),
    ) {
        (Some(tally), Some(stop), Some(nodes)) => {
            let three: [Box<dyn Auditor>; 3] = [tally, stop, nodes];
            match Vec::from_array(alloc, three) {
                Ok(made) => {
                    let mut row = made;
                    let is_set = first_takes(alloc, &mut row, "T-Pair,Z");
                    let number = objected_in(alloc, &mut row, "stop", rules, proof, list);
                    let are_said = says_at(alloc, &row, 0, b"tally T-Pair 2 Z 1")
                        && says_at(alloc, &row, 2, b"nodes 2 of 1000000");
                    drop(row);
                    is_set && number == 3 && are_said
                }
                Err(_) => false,
            }
        }
        (tally, stop, nodes) => {
            drop(nodes);
            drop(stop);
            drop(tally);
            false
        }
    }
}

/// Whether three auditors admit the nodes, and see them all.
fn passes(alloc: Global, rules: &RuleSet, proof: &Proof, list: Option<&[Entry]>) -> bool
    requires height { height_of (view.proof proof.now) ≤ 3000 }
    requires derived { (j : Judgement)
        × Derives (bare_rules_in rules.now) no_hypotheses j (view.proof proof.now) }
    requires order { MatchOption list Unit
        (λ l. entries l.now ≡ order_of (view.proof proof.now)) }
{
    match (
        boxed(alloc, makers::deny(alloc)),
        boxed(alloc, makers::depth(alloc)),
        boxed(alloc, makers::nodes(alloc)),
    ) {
        (Some(deny), Some(depth), Some(nodes)) => {
            let three: [Box<dyn Auditor>; 3] = [deny, depth, nodes];
            match Vec::from_array(alloc, three) {
                Ok(made) => {
                    let mut row = made;
                    let is_set = first_takes(alloc, &mut row, "Other");
                    let number = objected_in(alloc, &mut row, "", rules, proof, list);
                    let are_said = says_at(alloc, &row, 1, b"depth 3 of 3000")
                        && says_at(alloc, &row, 2, b"nodes 5 of 1000000");
                    drop(row);
                    is_set && number == 0 && are_said
                }
                Err(_) => false,
            }
        }
        (deny, depth, nodes) => {
            drop(nodes);
            drop(depth);
            drop(deny);
            false
        }
    }
}

/// What holds of the derivation in its boxes, and of its list.
fn both_ways(alloc: Global, rules: &RuleSet, proof: &Proof) -> Option<[bool; 4]>
    requires { (j : Judgement)
        × Derives (bare_rules_in rules.now) no_hypotheses j (view.proof proof.now) }
{
    if !is_shallow(proof, 3000) {
        return None;
    }
    let list = preorder(alloc, proof).ok()?;
    let hold = [
        stops(alloc, rules, proof, None),
        stops(alloc, rules, proof, Some(&list)),
        passes(alloc, rules, proof, None),
        passes(alloc, rules, proof, Some(&list)),
    ];
    drop(list);
    Some(hold)
}

/// What holds of the first derivation of the goal.
fn shown_with<L: Ledger>(
    alloc: Global,
    rules: &RuleSet,
    goal: &Goal,
    blank: Blank,
) -> Option<[bool; 4]>
    requires name { blank.name ≡ L.name }
    requires parts { blank.parts ≡ L.parts }
    requires some { 0 < blank.parts }
    requires goal { AreShallow (goal_of goal.now).terms }
{
    let given = Hyps::none(alloc);
    let mut steps = Steps::<L>::new(blank);
    let derived = derive(alloc, rules, &given, goal, None, 100, &mut steps);
    drop(given);
    let told = match &derived {
        Ok(it) => both_ways(alloc, rules, &it.proof),
        Err(_) => None,
    };
    drop(derived);
    told
}

/// What holds of the pair whose second part is a pair.
fn pair_is_shown(alloc: Global) -> Option<[bool; 4]> {
    let goal = goal(alloc, "(3 (0) (3 (0) (1)))")?;
    let told = match rules(alloc, Z, W, PAIR) {
        Some(rules) => {
            let told = shown_with::<Brand>(alloc, &rules, &goal, Blank::new(1));
            drop(rules);
            told
        }
        None => None,
    };
    drop(goal);
    told
}

#[test]
fn nodes_are_shown(rt: HostRuntime) {
    let alloc = rt.alloc();
    assert_same(&rt, &pair_is_shown(alloc), &Some([true; 4]));
}
