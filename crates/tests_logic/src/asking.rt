//! What `derive` answers, in short.

ghost use Rattle.std.specs.Prelude.{◌≡◌, ◌^◌, ◌<◌, [], MatchOption, length, map};
ghost use Rattle.sx_term.specs.Term.{tree};
ghost use Rattle.sx_rules.specs.Deep.{AreShallow};
ghost use Rattle.sx_rules.specs.Views.{goal as goal_of, hypotheses};
ghost use Rattle.sx_rules.specs.Derivations.{ShallowJudgements};
ghost use Rattle.sx_arena.specs.Entered.{ArePairsShallow};

use crate::terms::goal;
use std::alloc::Global;
use std::marker::Brand;
use std::sync::ledger::{Blank, Ledger};
use sx_derive::{Blame, Cause, DeriveError, Derived, derive};
use sx_rules::{Goal, Hyps, Proof, RuleSet};
use sx_term::{Steps, Term};

/// An answer in short.
#[derive(Clone, Copy, PartialEq)]
pub(crate) enum Told {
    /// A derivation that ends with this rule.
    By(u32),
    /// A hypothesis.
    Given,
    /// No derivation.
    Stuck(Stuck),
    /// So many tries are spent.
    TriesSpent(u64),
    /// A goal is deeper than so many.
    DepthSpent(u32),
    /// Another refusal.
    Other,
}

/// The label of a stuck goal's subject, how many steps lead to the goal, the first of them, and why
/// it is stuck.
#[derive(Clone, Copy, PartialEq)]
pub(crate) struct Stuck {
    pub subject: Option<u32>,
    pub steps: usize,
    pub first: Option<usize>,
    pub why: Why,
}

/// Why a goal is stuck.
#[derive(Clone, Copy, PartialEq)]
pub(crate) enum Why {
    NoRule,
    /// The rule's premise, by their numbers, asks that equal lexemes are apart.
    Equal(u32, usize),
    /// The rule's premise got an output with this label, and asks for another.
    Mismatch(u32, usize, Option<u32>),
    /// An output with this label is not the wanted one.
    Unwanted(Option<u32>),
}

/// The label of a node.
fn label(term: &Term) -> Option<u32> {
    match term {
        Term::Node { label, kids: _ } => Some(*label),
        _ => None,
    }
}

/// The label of the first of the terms.
fn first_label(terms: &[Term]) -> Option<u32> {
    label(terms.first()?)
}

/// How a derivation ends.
fn last_step(proof: &Proof) -> Told {
    match proof {
        Proof::Given(_) => Told::Given,
        Proof::By {
            rule,
            binds: _,
            kids: _,
        } => Told::By(*rule),
    }
}

/// The cause in short.
fn cause_in_short(cause: &Cause) -> Why {
    match cause {
        Cause::NoRule => Why::NoRule,
        Cause::Equal { rule, premise } => Why::Equal(*rule, *premise),
        Cause::Mismatch {
            by: Some((rule, premise)),
            got,
        } => Why::Mismatch(*rule, *premise, first_label(got)),
        Cause::Mismatch { by: None, got } => Why::Unwanted(first_label(got)),
    }
}

/// The blame in short.
fn stuck_goal(blame: &Blame) -> Stuck {
    Stuck {
        subject: first_label(&blame.goal.inputs),
        steps: blame.path.steps.len(),
        first: blame.path.steps.first().copied(),
        why: cause_in_short(&blame.cause),
    }
}

/// The answer in short.
fn in_short(answered: &Result<Derived, DeriveError>) -> Told {
    match answered {
        Ok(it) => last_step(&it.proof),
        Err(DeriveError::Underivable(blame)) => Told::Stuck(stuck_goal(blame)),
        Err(DeriveError::BudgetSpent(tries)) => Told::TriesSpent(*tries),
        Err(DeriveError::DepthSpent(depth)) => Told::DepthSpent(*depth),
        Err(_) => Told::Other,
    }
}

/// No hypotheses.
pub(crate) fn no_hypotheses(alloc: Global) -> Hyps
    ensures holds { result.holds.items ≡ [] }
    ensures apart { result.apart.items ≡ [] }
{
    Hyps {
        holds: Vec::new(alloc),
        apart: Vec::new(alloc),
    }
}

/// What is answered without hypotheses.
fn derive_with<L: Ledger>(
    alloc: Global,
    rules: &RuleSet,
    goal: &Goal,
    wanted: Option<&Vec<Term>>,
    budget: u64,
    blank: Blank,
) -> Told
    requires name { blank.name ≡ L.name }
    requires parts { blank.parts ≡ L.parts }
    requires some { 0 < blank.parts }
    requires goal { AreShallow (goal_of goal.now).terms }
    requires wanted { MatchOption wanted Unit (λ w. AreShallow (map tree w.now.items)) }
{
    let given = no_hypotheses(alloc);
    let mut steps = Steps::<L>::new(blank);
    let answered = derive(alloc, rules, &given, goal, wanted, budget, &mut steps);
    drop(given);
    let told = in_short(&answered);
    drop(answered);
    told
}

/// What is answered for the subject's type, where these outputs are wanted.
pub(crate) fn answer_wanted(
    alloc: Global,
    rules: &RuleSet,
    subject: &str,
    wanted: Option<&Vec<Term>>,
    budget: u64,
) -> Option<Told>
    requires wanted { MatchOption wanted Unit (λ w. AreShallow (map tree w.now.items)) }
{
    match goal(alloc, subject) {
        Some(goal) => {
            let told = derive_with::<Brand>(alloc, rules, &goal, wanted, budget, Blank::new(1));
            drop(goal);
            Some(told)
        }
        None => None,
    }
}

/// What is answered for the subject's type.
pub(crate) fn answer(alloc: Global, rules: &RuleSet, subject: &str, budget: u64) -> Option<Told> {
    answer_wanted(alloc, rules, subject, None, budget)
}

/// What is answered from hypotheses.
fn derive_from<L: Ledger>(
    alloc: Global,
    rules: &RuleSet,
    given: &Hyps,
    goal: &Goal,
    budget: u64,
    blank: Blank,
) -> Told
    requires name { blank.name ≡ L.name }
    requires parts { blank.parts ≡ L.parts }
    requires some { 0 < blank.parts }
    requires few { length given.now.holds.items < 2 ^ 32 }
    requires holds { ShallowJudgements (hypotheses given.now).judgements }
    requires apart { ArePairsShallow (hypotheses given.now).pairs }
    requires goal { AreShallow (goal_of goal.now).terms }
{
    let mut steps = Steps::<L>::new(blank);
    let answered = derive(alloc, rules, given, goal, None, budget, &mut steps);
    let told = in_short(&answered);
    drop(answered);
    told
}

/// What is answered from the hypotheses for the subject's type.
pub(crate) fn answer_from(
    alloc: Global,
    rules: &RuleSet,
    given: &Hyps,
    subject: &str,
    budget: u64,
) -> Option<Told>
    requires few { length given.now.holds.items < 2 ^ 32 }
    requires holds { ShallowJudgements (hypotheses given.now).judgements }
    requires apart { ArePairsShallow (hypotheses given.now).pairs }
{
    match goal(alloc, subject) {
        Some(goal) => {
            let told = derive_from::<Brand>(alloc, rules, given, &goal, budget, Blank::new(1));
            drop(goal);
            Some(told)
        }
        None => None,
    }
}
