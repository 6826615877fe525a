//! Searches that are taken up again.

ghost use Rattle.std.specs.Prelude.{◌≡◌, ◌<◌};
ghost use Rattle.sx_rules.specs.Deep.{AreShallow};
ghost use Rattle.sx_rules.specs.Views.{goal as goal_of};

use crate::asking::no_hypotheses;
use crate::asserts::assert_same;
use crate::samples::{OTHER_Z, PAIR, W, Z, joined, rules};
use crate::terms::goal;
use std::alloc::Global;
use std::marker::Brand;
use std::sync::ledger::{Blank, Ledger};
use sx_derive::{Found, Search, SearchError};
use sx_rules::{Goal, RuleSet};
use sx_term::{Steps, Text};

/// A pair of terms with types has the type 4.
const LOOSE_PAIR: &[u8] = b"rule Pair Exp Exp Ty Ty
if typing ?0 ?2
if typing ?1 ?3
then typing (3 ?0 ?1) (4)
end
";

/// The tries of the call are spent.
const PAUSED: u64 = u64::MAX - 1;

/// No derivation is left, or another stop.
const OVER: u64 = u64::MAX;

/// The tries after which a derivation is found; one of the two where none is.
fn call_of(found: &Result<Found, SearchError>) -> u64 {
    match found {
        Ok(Found::Next(_, tries)) => *tries,
        Ok(Found::Paused) => PAUSED,
        _ => OVER,
    }
}

/// What three calls of a search with these budgets come to.
fn three_calls<L: Ledger>(
    alloc: Global,
    rules: &RuleSet,
    goal: Goal,
    budgets: (u64, u64, u64),
    blank: Blank,
) -> Option<[u64; 3]>
    requires name { blank.name ≡ L.name }
    requires parts { blank.parts ≡ L.parts }
    requires some { 0 < blank.parts }
    requires goal { AreShallow (goal_of goal).terms }
{
    let given = no_hypotheses(alloc);
    let mut steps = Steps::<L>::new(blank);
    match Search::begin(alloc, rules, &given, goal) {
        Err(_) => None,
        Ok(it) => {
            let mut search = it;
            let found = search.next(rules, &given, budgets.0, &mut steps);
            let first = call_of(&found);
            drop(found);
            let found = search.next(rules, &given, budgets.1, &mut steps);
            let second = call_of(&found);
            drop(found);
            let found = search.next(rules, &given, budgets.2, &mut steps);
            let third = call_of(&found);
            drop(found);
            drop(search);
            Some([first, second, third])
        }
    }
}

/// What three calls for the subject's type come to.
fn calls(
    alloc: Global,
    rules: &RuleSet,
    subject: &str,
    budgets: (u64, u64, u64),
) -> Option<[u64; 3]> {
    let goal = goal(alloc, subject)?;
    three_calls::<Brand>(alloc, rules, goal, budgets, Blank::new(1))
}

/// What three calls for a pair of two terms come to.
fn pair_calls(alloc: Global, budgets: (u64, u64, u64)) -> Option<[u64; 3]> {
    match rules(alloc, Z, W, PAIR) {
        Some(rules) => {
            let told = calls(alloc, &rules, "(3 (0) (1))", budgets);
            drop(rules);
            told
        }
        None => None,
    }
}

#[test]
fn goes_on_after_a_pause(rt: HostRuntime) {
    let alloc = rt.alloc();
    let found = [pair_calls(alloc, (6, 9, 9)), pair_calls(alloc, (5, 1, 9))];
    let wanted = &[Some([6, OVER, OVER]), Some([PAUSED, 1, OVER])];
    assert_same(&rt, &found, wanted);
}

/// The text of a pair of this text with itself; less where memory is lacking.
fn doubled(alloc: Global, part: &[u8]) -> Vec<u8> {
    joined(alloc, &[b"(3 ", part, b" ", part, b")"])
}

/// The core text of a tree of pairs with so many levels, whose leaves are the term 0.
fn tree_text(alloc: Global, levels: usize) -> Vec<u8> {
    let mut text = joined(alloc, &[b"(0)"]);
    for _level in 0..levels {
        let next = doubled(alloc, &text);
        drop(text);
        text = next;
    }
    text
}

/// What three calls for the subject's type come to, by rules that give a leaf two types.
fn loose_calls(alloc: Global, subject: &str, budgets: (u64, u64, u64)) -> Option<[u64; 3]> {
    match rules(alloc, Z, OTHER_Z, LOOSE_PAIR) {
        Some(rules) => {
            let told = calls(alloc, &rules, subject, budgets);
            drop(rules);
            told
        }
        None => None,
    }
}

/// What three calls for the type of a tree of six levels come to.
fn tree_calls(alloc: Global, budgets: (u64, u64, u64)) -> Option<[u64; 3]> {
    let bytes = tree_text(alloc, 6);
    let told = match Text::make(alloc, &bytes) {
        Ok(text) => {
            let told = loose_calls(alloc, text.as_str(), budgets);
            drop(text);
            told
        }
        Err(_) => None,
    };
    drop(bytes);
    told
}

/// The tree has 2 to the power 64 derivations: no list of them is made.
#[test]
fn the_first_of_very_many(rt: HostRuntime) {
    let alloc = rt.alloc();
    let found = [
        tree_calls(alloc, (253, 1, 3)),
        tree_calls(alloc, (252, 1, 1)),
    ];
    assert_same(&rt, &found, &[Some([253, 1, 3]), Some([PAUSED, 1, 1])]);
}
