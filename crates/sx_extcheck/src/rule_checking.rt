//! The check of one rule.

ghost use Rattle.sx_extcheck.specs.Checks.{tries_for};
ghost use Rattle.sx_extcheck.specs.CheckView.{check_of, CanCheck, IsRuleChecked};
ghost use Rattle.sx_extcheck.specs.Searches.{AreSearchesCounted};
ghost use Rattle.sx_rewrite.specs.ExtensionView.{ext_rule};

use crate::check_error::CheckError;
use crate::checking::Checking;
use crate::flat_checking::check_flat;
use crate::flat_conclusion::flat_goal;
use crate::flat_premises::plain_premises;
use crate::flat_terms::measure_rule;
use crate::rewrite_defect::rewrite_defect;
use std::sync::ledger::Ledger;
use sx_rewrite::{ExtRule, Flat};
use sx_term::Steps;

/// What is stored of the rule: its flat terms are measured, the first derivation of its flat
/// conclusion from its flat premises is searched for, by the base rules alone where the typed
/// syntax of its body is base, and else what is found by the base rules and the plain rules of
/// the set is lowered.
pub(crate) fn check_rule<L: Ledger>(
    checking: &Checking,
    ext: &ExtRule,
    steps: &mut Steps<L>,
) -> Result<Flat, CheckError>
    requires { CanCheck checking.now.set.now checking.now.plain.now ext.now }
    ensures answer { IsRuleChecked (check_of checking.now) ext.now result }
    ensures steps { AreSearchesCounted (tries_for (check_of checking.now) (ext_rule ext.now))
        steps.old steps.new result }
{
    let base = checking.set.base_rules();
    match measure_rule(base, checking.plain, ext) {
        Ok(_) => {
            let given = plain_premises(checking.alloc, checking.plain, &ext.rule.premises)?;
            match flat_goal(checking.alloc, base, checking.plain, ext) {
                Ok(goal) => {
                    let flat = check_flat(checking, ext, &given, &goal, steps);
                    drop(given);
                    drop(goal);
                    flat
                }
                Err(_) => {
                    drop(given);
                    Err(CheckError::Memory)
                }
            }
        }
        Err(e) => Err(rewrite_defect(e)),
    }
}
