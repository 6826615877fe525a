//! Derivations that are kept as lists of entries and shown to auditors.

ghost use Rattle.std.specs.Prelude.{◌≡◌, ℕ, List, map, drop, Some, IfOk, slice_get};
ghost use Rattle.sx_rules.specs.Derivations.{Proof};
ghost use Rattle.sx_rules.specs.EntryView.{entries};
ghost use Rattle.sx_rules.specs.Orders.{Entry as EntryData, of_rule};
ghost use Rattle.sx_rules.specs.Sets.{rules_in, bare_rules_in};
ghost use Rattle.sx_audit.specs.Preorder.{nodes, IsDerivationList};
ghost use Rattle.sx_audit.specs.Shown.{IsShown, IsShownAfter};
ghost use Rattle.sx_audit.specs.Standing.{IsDerivationAt};

use crate::auditor::Auditor;
use crate::show_error::ShowError;
use crate::showing::{rule_at, show_node};
use std::alloc::Global;
use sx_rules::{Entry, Premise, RuleSet};

/// The number of the rule whose entry stands at the place.
fn rule_number(list: &[Entry], at: usize) -> u32
    requires { (r : ℕ) × (slice_get (entries list.now) at ≡ Some (of_rule r)) }
    ensures { slice_get (entries list.now) at ≡ Some (of_rule result) }
{
    match list.get(at) {
        Some(Entry::Rule(number)) => *number,
        _ => unreachable!(),
    }
}

/// Shows the nodes of the derivation whose entries stand in the list from the place on; its root
/// has this depth. The answer is the place after it. The place of an entry is also the number of
/// the nodes before it.
fn show_at(
    alloc: Global,
    auditors: &mut Vec<Box<dyn Auditor>>,
    rules: &RuleSet,
    list: &[Entry],
    at: usize,
    depth: u32,
) -> Result<usize, ShowError>
    requires { (p : Proof) × (rest : List EntryData)
        × IsDerivationAt (bare_rules_in rules.now) (entries list.now) at depth p rest }
    ensures shown { (p : Proof) (rest : List EntryData) →
        IsDerivationAt (bare_rules_in rules.now) (entries list.now) at depth p rest →
        IsShownAfter at (map (λ b. meaning b) auditors.old.items)
        (nodes (rules_in rules.now) depth p) result (map (λ b. meaning b) auditors.new.items) }
    ensures next { (p : Proof) (rest : List EntryData) →
        IsDerivationAt (bare_rules_in rules.now) (entries list.now) at depth p rest →
        IfOk result (λ next. drop next (entries list.now) ≡ rest) }
{
    let rule = rule_at(rules, rule_number(list, at));
    show_node(alloc, auditors, &rule.name, depth, at as u64)?;
    let mut next = at + 1;
    for premise in &rule.premises {
        match premise {
            Premise::Holds(_) => next = show_at(alloc, auditors, rules, list, next, depth + 1)?,
            Premise::Apart(_, _) => {}
        }
    }
    Ok(next)
}

/// Shows the nodes of a derivation that is kept as the list of its entries, as `show` does. The
/// depths follow from the list, since a node has a kid for each judgement among the premises of its
/// rule.
pub fn show_list(
    alloc: Global,
    auditors: &mut Vec<Box<dyn Auditor>>,
    rules: &RuleSet,
    list: &[Entry],
) -> Result<(), ShowError>
    requires { (p : Proof) × IsDerivationList (bare_rules_in rules.now) (entries list.now) p }
    ensures { (p : Proof) → IsDerivationList (bare_rules_in rules.now) (entries list.now) p →
        IsShown (map (λ b. meaning b) auditors.old.items) (nodes (rules_in rules.now) 1 p)
        result (map (λ b. meaning b) auditors.new.items) }
{
    show_at(alloc, auditors, rules, list, 0, 1)?;
    Ok(())
}
