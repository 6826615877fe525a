//! The candidates that come to nothing at a look.

ghost use Rattle.std.specs.Prelude.{
  ◌≡◌,
  ℕ,
  ◌+◌,
  ◌-◌,
  ◌^◌,
  ◌≤◌,
  ◌<◌,
  true,
  List,
  length,
  map,
};
ghost use Rattle.sx_rules.specs.Modes.{inputs};
ghost use Rattle.sx_rules.specs.Rules.{Judgement};
ghost use Rattle.sx_arena.specs.Arena.{tree_at, AreBelow, IsArena};
ghost use Rattle.sx_arena.specs.Places.{NeverFit};
ghost use Rattle.sx_rules.specs.SubjectTerms.{output_mask};
ghost use Rattle.sx_arena.specs.Views.{rules_of, rule_of, set_modes};
ghost use Rattle.sx_derive.specs.Givens.{IsStoreOf, HasFacts};
ghost use Rattle.sx_derive.specs.Halting.{AreTriesTaken};
ghost use Rattle.sx_derive.specs.Passing.{ComeToNothing};
ghost use Rattle.sx_derive.specs.Store.{store_trees};

use crate::given::Given;
use crate::store::Store;
use crate::tasks::Task;
use std::sync::ledger::Ledger;
use sx_arena::{Fact, Side, may_fit, roles, same_numbers};
use sx_rules::{Place, Rule};
use sx_term::Steps;

/// Whether the hypothesis has another form than the task's goal, or other inputs.
fn is_other_fact(fact: &Fact, task: &Task) -> bool
    ensures { result ≡ true → fact.now.form ≡ task.now.form →
        fact.now.inputs.items ≡ task.now.terms.items → ⊥ }
{
    fact.form != task.form || !same_numbers(&fact.inputs, &task.terms)
}

/// Whether the rule has another form than the task's goal, or inputs that match under no bindings.
/// The places are those of the goal's form.
fn is_other_rule(store: &Store, rule: &Rule, task: &Task, places: &[Place]) -> bool
    requires store { IsArena store.now.arena }
    requires terms { AreBelow (length (store_trees store.now)) task.now.terms.items }
    ensures { result ≡ true → (rule_of rule.now).conclusion.form ≡ task.now.form →
        NeverFit (inputs (output_mask places.now) (rule_of rule.now).conclusion.places)
        (map (tree_at (store_trees store.now)) task.now.terms.items) }
{
    if rule.conclusion.form != task.form {
        return true;
    }
    let side = Side {
        roles: places,
        outputs: false,
        places: &rule.conclusion.places,
    };
    !may_fit(&store.arena, &side, &task.terms)
}

/// Whether there is a candidate with the number that comes to nothing at a look.
fn is_miss(given: &Given, store: &Store, task: &Task, places: &[Place], next: usize) -> bool
    requires store { IsStoreOf given.now store.now }
    requires terms { AreBelow (length (store_trees store.now)) task.now.terms.items }
    requires places { output_mask places.now ≡ set_modes given.now.rules.now task.now.form }
    ensures there { result ≡ true →
        next < length given.now.facts.now + length (rules_of given.now.rules.now) }
    ensures nothing { result ≡ true → (js : List Judgement) → HasFacts given.now store.now js →
        ComeToNothing (set_modes given.now.rules.now) (rules_of given.now.rules.now)
        given.now.pairs.now js store.now task.now next 1 }
{
    if next < given.facts.len() {
        return is_other_fact(&given.facts[next], task);
    }
    match u32::try_from(next - given.facts.len()) {
        Err(_) => false,
        Ok(number) => match given.rules.rule(number) {
            None => false,
            Some(rule) => is_other_rule(store, rule, task, places),
        },
    }
}

/// The number of the task's next candidate that does not come to nothing at a look. Each that is
/// passed over takes one of the tries that are left, and none is passed over without.
pub(crate) fn pass_over(given: &Given, store: &Store, task: &Task, left: &mut u64) -> usize
    requires store { IsStoreOf given.now store.now }
    requires terms { AreBelow (length (store_trees store.now)) task.now.terms.items }
    ensures less { left.new ≤ left.old }
    ensures number { result ≡ task.now.next + (left.old - left.new) }
    ensures within { (n : ℕ) → n ≡ length given.now.facts.now + length (rules_of
        given.now.rules.now) → task.now.next ≤ n → result ≤ n }
    ensures nothing { (js : List Judgement) → HasFacts given.now store.now js →
        ComeToNothing (set_modes given.now.rules.now) (rules_of given.now.rules.now)
        given.now.pairs.now js store.now task.now task.now.next (left.old - left.new) }
{
    let places = roles(given.rules, task.form);
    let mut next = task.next;
    while *left > 0 && is_miss(given, store, task, places, next) {
        next += 1;
        *left -= 1;
    }
    next
}

/// Takes the tries of the candidates up to the rule with the number, its own too, and answers
/// whether there are so many; none is left where there are not.
pub(crate) fn take_tries(given: &Given, number: u32, tries: &mut u64) -> bool
    requires few { length given.now.facts.now < 2 ^ 32 }
    ensures { AreTriesTaken (length given.now.facts.now + number) tries.old tries.new result }
{
    let before = given.facts.len() as u64 + number as u64;
    if *tries <= before {
        *tries = 0;
        return false;
    }
    *tries -= before + 1;
    true
}

/// Counts that many tries.
pub(crate) fn count<L: Ledger>(steps: &mut Steps<L>, tries: u64)
    ensures { steps.new ≡ steps.old + tries }
{
    for _ in 0..tries {
        steps.tick();
    }
}
