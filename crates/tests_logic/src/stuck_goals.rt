//! Which goal is stuck where nothing is derived, and why.

use crate::asking::{Stuck, Told, Why, answer};
use crate::asserts::{assert_holds, assert_same};
use crate::samples::{PAIR, W, Z, rules};
use std::alloc::Global;

/// The term 1 has the type 4 where x and x are apart.
const NEVER: &[u8] = b"rule Never
not i1:x i1:x
then typing (1) (4)
end
";

/// What is answered by the rules for two terms and pairs.
fn by_pairs(alloc: Global, subject: &str, budget: u64) -> Option<Told> {
    match rules(alloc, Z, W, PAIR) {
        Some(rules) => {
            let told = answer(alloc, &rules, subject, budget);
            drop(rules);
            told
        }
        None => None,
    }
}

/// What is told where no rule fits a goal for the term 2.
fn no_rule(steps: usize, first: usize) -> Option<Told> {
    Some(Told::Stuck(Stuck {
        subject: Some(2),
        steps,
        first: Some(first),
        why: Why::NoRule,
    }))
}

#[test]
fn places_of_stuck_goals(rt: HostRuntime) {
    let alloc = rt.alloc();
    let first = Stuck {
        subject: Some(1),
        steps: 1,
        first: Some(0),
        why: Why::Mismatch(2, 0, Some(5)),
    };
    let hold = [
        by_pairs(alloc, "(3 (0) (2))", 9) == no_rule(1, 1),
        by_pairs(alloc, "(3 (0) (3 (0) (2)))", 30) == no_rule(2, 1),
        by_pairs(alloc, "(3 (1) (0))", 6) == Some(Told::Stuck(first)),
    ];
    assert_same(&rt, &hold, &[true; 3]);
}

/// What is answered for the term 1, where x and x would have to be apart.
fn never(alloc: Global) -> Option<Told> {
    match rules(alloc, PAIR, Z, NEVER) {
        Some(rules) => {
            let told = answer(alloc, &rules, "(1)", 9);
            drop(rules);
            told
        }
        None => None,
    }
}

#[test]
fn equal_lexemes(rt: HostRuntime) {
    let equal = Stuck {
        subject: Some(1),
        steps: 0,
        first: None,
        why: Why::Equal(2, 0),
    };
    assert_holds(&rt, never(rt.alloc()) == Some(Told::Stuck(equal)));
}
