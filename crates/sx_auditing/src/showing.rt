//! The step that shows the derivation of a unit to auditors.

ghost use Rattle.std.specs.Prelude.{◌≡◌, ℕ, map, IfOk};
ghost use Rattle.sx_rules.specs.Derivations.{Proof};
ghost use Rattle.sx_rules.specs.EntryView.{entries};
ghost use Rattle.sx_rules.specs.Sets.{rules_in, bare_rules_in};
ghost use Rattle.sx_rules.specs.Views.{rule_name};
ghost use Rattle.sx_audit.specs.Preorder.{nodes, IsDerivationList};
ghost use Rattle.sx_steps.specs.Refusal.{about};
ghost use Rattle.sx_steps.specs.Stop.{Gives, IsNoFault};
ghost use Rattle.sx_words.specs.declared.refusal.Defect.TheVariants as defects;
ghost use Rattle.sx_auditing.specs.Listed.{IsRuleAt};
ghost use Rattle.sx_auditing.specs.Shows.{Shows, HasSeen};

use std::alloc::Global;
use sx_audit::{Auditor, ShowError, show_list};
use sx_rules::{Entry, RuleSet};
use sx_steps::{StepError, Stop, refused};
use sx_term::{NoMemory, Text};
use sx_words::Defect;

/// The rule of the entry with this number, counted from 1.
fn rule_at(list: &[Entry], node: u64) -> u32
    requires { (rules : _) × (r : ℕ) × IsRuleAt rules (entries list.now) node r }
    ensures { (rules : _) (r : ℕ) → IsRuleAt rules (entries list.now) node r → result ≡ r }
{
    match list.get((node - 1) as usize) {
        Some(Entry::Rule(number)) => *number,
        _ => unreachable!(),
    }
}

/// The name of the rule of the entry with this number, counted from 1.
fn name_at(alloc: Global, rules: &RuleSet, list: &[Entry], node: u64) -> Result<Text, NoMemory>
    requires { (r : ℕ) × IsRuleAt (rules_in rules.now) (entries list.now) node r }
    ensures { (r : ℕ) → IsRuleAt (rules_in rules.now) (entries list.now) node r →
        IfOk result (λ name. name ≡ rule_name (rules_in rules.now) r) }
{
    match rules.rule(rule_at(list, node)) {
        Some(rule) => rule.name.copy(alloc),
        None => unreachable!(),
    }
}

/// The stop of the auditor that objects to the node with this number, counted from 1.
fn objection(
    alloc: Global,
    file: &Text,
    rules: &RuleSet,
    list: &[Entry],
    auditor: Text,
    node: u64,
) -> Result<Stop, NoMemory>
    requires { (r : ℕ) × IsRuleAt (rules_in rules.now) (entries list.now) node r }
    ensures { (r : ℕ) → IsRuleAt (rules_in rules.now) (entries list.now) node r →
        IfOk result (λ stop. stop ≡ about file.now
        (defects.Objected auditor node (rule_name (rules_in rules.now) r))) }
{
    match name_at(alloc, rules, list, node) {
        Ok(rule) => refused(
            alloc,
            file,
            Defect::Objected {
                auditor,
                node,
                rule,
            },
        ),
        Err(e) => {
            drop(auditor);
            Err(e)
        }
    }
}

/// Shows the nodes of the derivation whose list this is to the auditors, in preorder, each to every
/// auditor in order. The stop is the objection of the first auditor that refuses a node, told of
/// the file, with the auditor's name, the node's number from 1 and the name of its rule. The list
/// is asked to be that of a derivation by the rules without facts and hypotheses; no derivation is
/// made for it. Where memory runs out the auditors have seen some of the nodes.
pub fn show_unit(
    alloc: Global,
    file: &Text,
    auditors: &mut Vec<Box<dyn Auditor>>,
    rules: &RuleSet,
    list: &[Entry],
) -> Result<(), StepError>
    requires { (p : Proof) × IsDerivationList (bare_rules_in rules.now) (entries list.now) p }
    ensures step { Gives (λ x. map (λ b. meaning b) auditors.new.items)
        (Shows file.now (rules_in rules.now) (map (λ b. meaning b) auditors.old.items)
        (entries list.now)) result }
    // After a refusal the auditors have seen the nodes as far as to the objection.
    ensures seen { (p : Proof) → IsDerivationList (bare_rules_in rules.now) (entries list.now) p →
        HasSeen (map (λ b. meaning b) auditors.old.items) (nodes (rules_in rules.now) 1 p) result
        (map (λ b. meaning b) auditors.new.items) }
    ensures no_fault { IsNoFault result }
{
    match show_list(alloc, auditors, rules, list) {
        Ok(()) => Ok(()),
        Err(ShowError::Memory) => Err(StepError::Memory),
        Err(ShowError::Objected(auditor, node)) => {
            match objection(alloc, file, rules, list, auditor, node) {
                Ok(stop) => Err(StepError::Stopped(stop)),
                Err(_) => Err(StepError::Memory),
            }
        }
    }
}
