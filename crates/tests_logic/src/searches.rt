//! What `derive` finds and where it gives up, on goals that are worked out by hand.

ghost use Rattle.std.specs.Prelude.{◌^◌, ◌<◌, IfSome, length};
ghost use Rattle.sx_rules.specs.Views.{hypotheses};
ghost use Rattle.sx_rules.specs.Derivations.{ShallowJudgements};
ghost use Rattle.sx_arena.specs.Entered.{ArePairsShallow};

use crate::asking::{Stuck, Told, Why, answer, answer_from, answer_wanted};
use crate::asserts::{assert_holds, assert_same};
use crate::samples::{OTHER_Z, PAIR, W, Z, rules};
use crate::terms::{judgement, one_term};
use std::alloc::Global;
use sx_rules::Hyps;

/// What has a type has it: a rule that leads back to its own goal.
const LOOP: &[u8] = b"rule L Exp Ty
if typing ?0 ?1
then typing ?0 ?1
end
";

/// The term 0 has the type 4 where x and y are apart.
const APART: &[u8] = b"rule Z
not i1:x i1:y
then typing (0) (4)
end
";

/// What is answered by three rules.
fn by_rules(
    alloc: Global,
    texts: (&[u8], &[u8], &[u8]),
    subject: &str,
    budget: u64,
) -> Option<Told> {
    match rules(alloc, texts.0, texts.1, texts.2) {
        Some(rules) => {
            let told = answer(alloc, &rules, subject, budget);
            drop(rules);
            told
        }
        None => None,
    }
}

#[test]
fn finds_a_pair(rt: HostRuntime) {
    let alloc = rt.alloc();
    let told = by_rules(alloc, (Z, W, PAIR), "(3 (0) (1))", 6);
    assert_holds(&rt, told == Some(Told::By(2)));
}

#[test]
fn spends_the_tries(rt: HostRuntime) {
    let alloc = rt.alloc();
    let told = by_rules(alloc, (Z, W, PAIR), "(3 (0) (1))", 5);
    assert_holds(&rt, told == Some(Told::TriesSpent(5)));
}

#[test]
fn spends_the_depth(rt: HostRuntime) {
    let alloc = rt.alloc();
    let deep = by_rules(alloc, (LOOP, Z, PAIR), "(0)", 3000);
    let spent = by_rules(alloc, (LOOP, Z, PAIR), "(0)", 2999);
    let hold = [
        deep == Some(Told::DepthSpent(3000)),
        spent == Some(Told::TriesSpent(2999)),
    ];
    assert_same(&rt, &hold, &[true; 2]);
}

/// What is answered where the term 0 is to have this type, by the rules that give it two types.
fn wanting(alloc: Global, output: &str) -> Option<Told> {
    let rules = rules(alloc, Z, OTHER_Z, PAIR)?;
    let told = match one_term(alloc, output) {
        Some(wanted) => {
            let told = answer_wanted(alloc, &rules, "(0)", Some(&wanted), 9);
            drop(wanted);
            told
        }
        None => None,
    };
    drop(rules);
    told
}

#[test]
fn finds_the_wanted_output(rt: HostRuntime) {
    let alloc = rt.alloc();
    let unwanted = Stuck {
        subject: Some(0),
        steps: 0,
        first: None,
        why: Why::Unwanted(Some(4)),
    };
    let hold = [
        wanting(alloc, "(4)") == Some(Told::By(0)),
        wanting(alloc, "(5)") == Some(Told::By(1)),
        wanting(alloc, "(0)") == Some(Told::Stuck(unwanted)),
    ];
    assert_same(&rt, &hold, &[true; 3]);
}

#[test]
fn goes_back_to_another_output(rt: HostRuntime) {
    let alloc = rt.alloc();
    let found = by_rules(alloc, (OTHER_Z, Z, PAIR), "(3 (0) (0))", 6);
    let spent = by_rules(alloc, (OTHER_Z, Z, PAIR), "(3 (0) (0))", 5);
    let hold = [
        found == Some(Told::By(2)),
        spent == Some(Told::TriesSpent(5)),
    ];
    assert_same(&rt, &hold, &[true; 2]);
}

#[test]
fn lexemes_that_are_apart(rt: HostRuntime) {
    let alloc = rt.alloc();
    let told = by_rules(alloc, (PAIR, APART, W), "(0)", 9);
    assert_holds(&rt, told == Some(Told::By(1)));
}

/// The hypothesis that the term 0 has the type 5.
fn hypothesis(alloc: Global) -> Option<Hyps>
    ensures few { IfSome result (λ h. length h.holds.items < 2 ^ 32) }
    ensures holds { IfSome result (λ h. ShallowJudgements (hypotheses h).judgements) }
    ensures apart { IfSome result (λ h. ArePairsShallow (hypotheses h).pairs) }
{
    let mut holds = Vec::new(alloc);
    let one = judgement(alloc, "(0)", "(5)")?;
    holds.push(one).ok()?;
    Some(Hyps {
        holds,
        apart: Vec::new(alloc),
    })
}

/// What is answered from the hypothesis with one try.
fn given_one(alloc: Global) -> Option<Told> {
    let given = hypothesis(alloc)?;
    let told = match rules(alloc, Z, W, PAIR) {
        Some(rules) => {
            let told = answer_from(alloc, &rules, &given, "(0)", 1);
            drop(rules);
            told
        }
        None => None,
    };
    drop(given);
    told
}

#[test]
fn takes_a_hypothesis_before_a_rule(rt: HostRuntime) {
    assert_holds(&rt, given_one(rt.alloc()) == Some(Told::Given));
}
