//! The check of a rule whose flat terms are within the limits.

ghost use Rattle.std.specs.Prelude.{◌≡◌, true, false};
ghost use Rattle.sx_rules.specs.EntryView.{entries};
ghost use Rattle.sx_rewrite.specs.declared.ext_rule.ExtRule.{ExtRule as ExtRuleOf};
ghost use Rattle.sx_rewrite.specs.ExtensionView.{ext_rule};
ghost use Rattle.sx_extcheck.specs.Checks.{by_base, search_for};
ghost use Rattle.sx_extcheck.specs.CheckView.{check_of, IsFlatRule, IsFoundRule, IsRuleChecked};
ghost use Rattle.sx_extcheck.specs.Searches.{tries_in, AreSearchesCounted};

use crate::base_syntax::has_base_syntax;
use crate::check_error::CheckError;
use crate::checking::Checking;
use crate::finding::{find, find_list};
use crate::flat_goal::FlatGoal;
use crate::rewrite_defect::rewrite_defect;
use crate::storing::{with_certificate, with_image};
use std::sync::ledger::Ledger;
use sx_expand::{Expanded, expand_open};
use sx_rewrite::{ExtRule, Flat};
use sx_rules::{Entry, Hyps};
use sx_term::Steps;

/// What is stored of the rule with these flat premises and this flat conclusion.
pub(crate) fn check_flat<L: Ledger>(
    checking: &Checking,
    ext: &ExtRule,
    given: &Hyps,
    goal: &FlatGoal,
    steps: &mut Steps<L>,
) -> Result<Flat, CheckError>
    requires { IsFlatRule checking.now ext.now given.now goal.now }
    ensures answer { IsRuleChecked (check_of checking.now) ext.now result }
    ensures steps { AreSearchesCounted
        (tries_in (search_for (check_of checking.now) (ext_rule ext.now))
        checking.now.budgets.tries)
        steps.old steps.new result }
{
    if has_base_syntax(checking.plain, &ext.body) {
        return check_by_base(checking, ext, given, goal, steps);
    }
    check_by_plain(checking, ext, given, goal, steps)
}

/// What is stored of a rule whose body has base typed syntax alone, or that has none: the first
/// derivation by the base rules, and the plain image of the body.
fn check_by_base<L: Ledger>(
    checking: &Checking,
    ext: &ExtRule,
    given: &Hyps,
    goal: &FlatGoal,
    steps: &mut Steps<L>,
) -> Result<Flat, CheckError>
    requires flat { IsFlatRule checking.now ext.now given.now goal.now }
    requires base { by_base (check_of checking.now) (ext_rule ext.now) ≡ true }
    ensures answer { IsRuleChecked (check_of checking.now) ext.now result }
    ensures steps { AreSearchesCounted
        (tries_in (search_for (check_of checking.now) (ext_rule ext.now))
        checking.now.budgets.tries)
        steps.old steps.new result }
{
    let rules = checking.set.base_rules();
    match find(
        checking.alloc,
        rules,
        given,
        goal,
        checking.budgets.tries,
        steps,
    ) {
        Ok(proof) => Ok(with_image(checking.alloc, checking.plain, &ext.body, proof)?),
        Err(e) => Err(e),
    }
}

/// What is stored of a rule whose body has typed syntax of the extensions before: what the first
/// derivation by the base rules and the plain rules is lowered to.
fn check_by_plain<L: Ledger>(
    checking: &Checking,
    ext: &ExtRule,
    given: &Hyps,
    goal: &FlatGoal,
    steps: &mut Steps<L>,
) -> Result<Flat, CheckError>
    requires flat { IsFlatRule checking.now ext.now given.now goal.now }
    requires plain { by_base (check_of checking.now) (ext_rule ext.now) ≡ false }
    ensures answer { IsRuleChecked (check_of checking.now) ext.now result }
    ensures steps { AreSearchesCounted
        (tries_in (search_for (check_of checking.now) (ext_rule ext.now))
        checking.now.budgets.tries)
        steps.old steps.new result }
{
    checking.set.facts();
    let rules = checking.set.plain_rules();
    match find_list(
        checking.alloc,
        rules,
        given,
        goal,
        checking.budgets.tries,
        steps,
    ) {
        Ok(list) => {
            let stored = lower_found(checking, given, goal, &list);
            drop(list);
            stored
        }
        Err(e) => Err(e),
    }
}

/// What is stored of the rule where the derivation that is found has this list: what that is
/// lowered to, which is the one derivation that is made in boxes.
fn lower_found(
    checking: &Checking,
    given: &Hyps,
    goal: &FlatGoal,
    list: &[Entry],
) -> Result<Flat, CheckError>
    requires { (ext : ExtRuleOf)
        × IsFoundRule checking.now ext given.now goal.now (entries list.now) }
    ensures { (ext : ExtRuleOf) →
        IsFoundRule checking.now ext given.now goal.now (entries list.now) →
        IsRuleChecked (check_of checking.now) ext result }
{
    checking.set.facts();
    let base = checking.set.base_rules();
    let nodes = checking.budgets.nodes;
    match expand_open(checking.alloc, checking.set, &goal.goal, list, given, nodes) {
        Ok(expanded) => {
            let Expanded {
                entries,
                judgement,
                copied: _,
            } = expanded;
            let lowered = entries.as_slice();
            let stored = with_certificate(checking.alloc, base, given, &judgement, lowered);
            drop(entries);
            drop(judgement);
            Ok(stored?)
        }
        Err(e) => Err(rewrite_defect(e)),
    }
}
