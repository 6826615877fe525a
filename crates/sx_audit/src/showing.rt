//! Derivations that are shown to auditors.

ghost use Rattle.std.specs.Prelude.{◌≡◌, ◌+◌, ◌<◌, ◌≤◌, ◌∷◌, [], map, length, true, false};
ghost use Rattle.std.specs.Prelude.{MatchResult, Some, slice_get};
ghost use Rattle.sx_rules.specs.Derivations.{height_of};
ghost use Rattle.sx_rules.specs.ProofView as view;
ghost use Rattle.sx_rules.specs.Sets.{rules_in};
ghost use Rattle.sx_rules.specs.Views.{named};
ghost use Rattle.sx_audit.specs.Meaning.{node, after_node, verdict};
ghost use Rattle.sx_audit.specs.Preorder.{nodes, IsByRules};
ghost use Rattle.sx_audit.specs.Shown.{IsShowTold, IsShown, IsShownAfter};
ghost use Rattle.sx_rules.specs.Limits.{most_levels};

use crate::auditor::Auditor;
use crate::show_error::ShowError;
use std::alloc::Global;
use sx_rules::{Proof, Rule, RuleSet};
use sx_term::Text;

/// Shows the node with this number to one auditor.
fn show_one(
    alloc: Global,
    auditor: &mut Box<dyn Auditor>,
    rule: &Text,
    depth: u32,
    number: u64,
) -> Result<(), ShowError>
    ensures state { meaning auditor.new ≡ after_node (meaning auditor.old) (node rule.now depth) }
    ensures answer { MatchResult result
        (λ _. verdict (meaning auditor.old) (node rule.now depth) ≡ true)
        (λ e. (verdict (meaning auditor.old) (node rule.now depth) ≡ false)
        × IsShowTold e (meaning auditor.old) number) }
{
    if auditor.see(rule, depth) {
        return Ok(());
    }
    let name = auditor.name().copy(alloc)?;
    Err(ShowError::Objected(name, number))
}

/// Shows a node to the auditors, up to the first that refuses it, after so many nodes `before`. The
/// answer is how many were shown then.
pub(crate) fn show_node(
    alloc: Global,
    auditors: &mut Vec<Box<dyn Auditor>>,
    rule: &Text,
    depth: u32,
    before: u64,
) -> Result<u64, ShowError>
    ensures { IsShownAfter before (map (λ b. meaning b) auditors.old.items)
        (node rule.now depth ∷ []) result (map (λ b. meaning b) auditors.new.items) }
{
    let number = before.saturating_add(1);
    for auditor in auditors.iter_mut() {
        show_one(alloc, auditor, rule, depth, number)?;
    }
    Ok(number)
}

/// The rule with this number.
pub(crate) fn rule_at(rules: &RuleSet, number: u32) -> &Rule
    requires { number < length (rules_in rules.now) }
    ensures { slice_get (rules_in rules.now) number ≡ Some (named result.now) }
{
    match rules.rule(number) {
        Some(rule) => rule,
        None => unreachable!(),
    }
}

/// Shows the nodes of a derivation whose root has this depth, after so many nodes `before`. The
/// answer is how many were shown then.
fn show_from(
    alloc: Global,
    auditors: &mut Vec<Box<dyn Auditor>>,
    rules: &RuleSet,
    proof: &Proof,
    depth: u32,
    before: u64,
) -> Result<u64, ShowError>
    requires height { height_of (view.proof proof.now) + depth ≤ most_levels + 1 }
    requires rules { IsByRules (length (rules_in rules.now)) (view.proof proof.now) }
    ensures { IsShownAfter before (map (λ b. meaning b) auditors.old.items)
        (nodes (rules_in rules.now) depth (view.proof proof.now))
        result (map (λ b. meaning b) auditors.new.items) }
{
    match proof {
        Proof::By {
            rule,
            binds: _,
            kids,
        } => {
            let name = &rule_at(rules, *rule).name;
            let first = show_node(alloc, auditors, name, depth, before)?;
            let mut shown = first;
            for kid in kids {
                shown = show_from(alloc, auditors, rules, kid, depth + 1, shown)?;
            }
            Ok(shown)
        }
        Proof::Given(_) => unreachable!(),
    }
}

/// Shows the nodes of a derivation to the auditors, in preorder, each to every auditor in order,
/// with the name of its rule and its depth, where the root has depth 1. Objected comes exactly
/// where an auditor refuses a node, with its name and the number of the node; what comes after is
/// then not shown. Memory comes in place of it, where it is lacking for the name.
pub fn show(
    alloc: Global,
    auditors: &mut Vec<Box<dyn Auditor>>,
    rules: &RuleSet,
    proof: &Proof,
) -> Result<(), ShowError>
    requires height { height_of (view.proof proof.now) ≤ most_levels }
    requires rules { IsByRules (length (rules_in rules.now)) (view.proof proof.now) }
    ensures { IsShown (map (λ b. meaning b) auditors.old.items)
        (nodes (rules_in rules.now) 1 (view.proof proof.now))
        result (map (λ b. meaning b) auditors.new.items) }
{
    show_from(alloc, auditors, rules, proof, 1, 0)?;
    Ok(())
}
