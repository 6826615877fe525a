//! Lists that are replayed, for the pair of two leaves.

ghost use Rattle.sx_rules.specs.Deep.{AreShallow};
ghost use Rattle.sx_rules.specs.Views.{goal as goal_of};

use crate::asking::no_hypotheses;
use crate::asserts::assert_same;
use crate::samples::{Z, rules};
use crate::terms::goal;
use std::alloc::Global;
use sx_replay::{ReplayError, replay};
use sx_rules::{Entry, Goal, RuleSet};
use sx_term::Term;

/// A pair has the type that both of its parts have.
const EVEN_PAIR: &[u8] = b"rule T-Pair Exp Exp Ty
if typing ?0 ?2
if typing ?1 ?2
then typing (3 ?0 ?1) ?2
end
";

/// 0 and the number of outputs, or the refusal's place among the refusals and its number.
fn told(replayed: &Result<Vec<Term>, ReplayError>) -> (u32, u64) {
    match replayed {
        Ok(outputs) => (0, outputs.len() as u64),
        Err(ReplayError::Memory) => (8, 0),
        Err(ReplayError::WrongAt(entry)) => (1, u64::from(*entry)),
        Err(ReplayError::EndsEarly) => (2, 0),
        Err(ReplayError::LongList(entry)) => (3, u64::from(*entry)),
        Err(ReplayError::TooDeep(depth)) => (4, *depth),
        Err(ReplayError::TooBig(nodes)) => (5, *nodes),
        Err(ReplayError::DeepList(entry)) => (6, u64::from(*entry)),
    }
}

/// How replaying ends by the rules.
fn replayed(alloc: Global, rules: &RuleSet, goal: &Goal, list: &[Entry]) -> (u32, u64)
    requires { AreShallow (goal_of goal.now).terms }
{
    if list.len() > 100 {
        return (9, 0);
    }
    let given = no_hypotheses(alloc);
    let replayed = replay(alloc, rules, &given, goal, list);
    drop(given);
    let told = told(&replayed);
    drop(replayed);
    told
}

/// How replaying ends for the type of the pair of two leaves.
fn ending(alloc: Global, list: &[Entry]) -> Option<(u32, u64)> {
    let goal = goal(alloc, "(3 (0) (0))")?;
    let told = match rules(alloc, Z, EVEN_PAIR, b"") {
        Some(rules) => {
            let told = replayed(alloc, &rules, &goal, list);
            drop(rules);
            Some(told)
        }
        None => None,
    };
    drop(goal);
    told
}

#[test]
fn lists_of_a_pair(rt: HostRuntime) {
    let alloc = rt.alloc();
    let (pair, leaf) = (Entry::Rule(1), Entry::Rule(0));
    let found = [
        ending(alloc, &[pair, leaf, leaf]),
        ending(alloc, &[pair, leaf]),
        ending(alloc, &[pair, leaf, pair]),
        ending(alloc, &[pair, leaf, leaf, leaf]),
        ending(alloc, &[Entry::Given(0)]),
        ending(alloc, &[Entry::Rule(2)]),
    ];
    assert_same(
        &rt,
        &found,
        &[
            Some((0, 1)),
            Some((2, 0)),
            Some((1, 3)),
            Some((3, 4)),
            Some((1, 1)),
            Some((1, 1)),
        ],
    );
}
