//! Texts of certificates.

ghost use Rattle.std.specs.Prelude.{◌≡◌, ◌++◌, ◌∷◌, ◌≤◌, OnOk, map};
ghost use Rattle.sx_rules.specs.Derivations.{height_of};
ghost use Rattle.sx_rules.specs.EntryView as view;
ghost use Rattle.sx_rules.specs.ProofView.{proof as proof_of};
ghost use Rattle.sx_rules.specs.Sets.{rules_in};
ghost use Rattle.sx_rules.specs.Views as views;
ghost use Rattle.sx_check.specs.CertificateText as text;
ghost use Rattle.sx_rules.specs.Limits.{most_levels};

use std::alloc::Global;
use sx_rules::{Entry, Proof, RuleSet, preorder};
use sx_term::{NoMemory, Text};

/// Appends the name of the rule with this number, where there is such a rule.
fn put_name(rules: &RuleSet, number: u32, into: &mut Vec<u8>) -> Result<(), NoMemory>
    ensures { OnOk result (into.new.items ≡ into.old.items
        ++ views.rule_name (rules_in rules.now) number) }
{
    if let Some(rule) = rules.rule(number) {
        into.extend_from_slice(rule.name.bytes())?;
    }
    Ok(())
}

/// Appends a blank and the text of an entry.
fn put_entry(
    alloc: Global,
    rules: &RuleSet,
    entry: Entry,
    into: &mut Vec<u8>,
) -> Result<(), NoMemory>
    ensures { OnOk result (into.new.items ≡ into.old.items
        ++ 32 ∷ text.certificate_entry_text (rules_in rules.now) (view.entry entry)) }
{
    into.push(b' ')?;
    match entry {
        Entry::Rule(number) => put_name(rules, number, into),
        Entry::Given(number) => {
            let digits = (u64::from(number) + 1).to_string(alloc)?;
            into.extend_from_slice(b"given ")?;
            into.extend_from_slice(digits.as_bytes())?;
            Ok(())
        }
    }
}

/// Appends the entries, each after a blank.
fn put_entries(
    alloc: Global,
    rules: &RuleSet,
    list: &[Entry],
    into: &mut Vec<u8>,
) -> Result<(), NoMemory>
    ensures { OnOk result (into.new.items ≡ into.old.items
        ++ text.entries_text (rules_in rules.now) (map view.entry list.now)) }
{
    for entry in list {
        put_entry(alloc, rules, *entry, into)?;
    }
    Ok(())
}

/// Appends the line of the certificate of the rule with this name, which is a derivation by these
/// rules.
pub(crate) fn put_certificate(
    alloc: Global,
    rules: &RuleSet,
    name: &Text,
    proof: &Proof,
    into: &mut Vec<u8>,
) -> Result<(), NoMemory>
    requires { height_of (proof_of proof.now) ≤ most_levels }
    ensures { OnOk result (into.new.items ≡ into.old.items
        ++ text.certificate_line (rules_in rules.now) name.now (proof_of proof.now)) }
{
    let list = preorder(alloc, proof)?;
    into.extend_from_slice(name.bytes())?;
    into.extend_from_slice(b":")?;
    put_entries(alloc, rules, &list, into)?;
    into.push(b'\n')?;
    Ok(())
}
