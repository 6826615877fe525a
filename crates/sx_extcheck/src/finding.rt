//! The first derivation of a flat goal.

ghost use Rattle.std.specs.Prelude.{◌≡◌, ◌^◌, ◌<◌, length};
ghost use Rattle.sx_extcheck.specs.Searches.{search_of, tries_in, IsShallowSearch, IsCheckSearched};
ghost use Rattle.sx_extcheck.specs.Searches.{IsListSearched, AreSearchesCounted, search_defect};

use crate::check_error::CheckError;
use crate::flat_goal::FlatGoal;
use crate::rule_refusal::RuleRefusal;
use std::alloc::Global;
use std::sync::ledger::Ledger;
use sx_derive::{DeriveError, Derived, Listed, derive, derive_list};
use sx_rules::{Entry, Hyps, Proof, RuleSet};
use sx_term::Steps;

/// The first derivation of the goal with the wanted outputs, from the hypotheses. Each try is
/// counted in `steps`, and at most `tries` are made.
pub(crate) fn find<L: Ledger>(
    alloc: Global,
    rules: &RuleSet,
    given: &Hyps,
    goal: &FlatGoal,
    tries: u64,
    steps: &mut Steps<L>,
) -> Result<Box<Proof>, CheckError>
    requires few { length given.now.holds.items < 2 ^ 32 }
    requires shallow { IsShallowSearch (search_of rules.now given.now goal.now) }
    ensures answer { IsCheckSearched (search_of rules.now given.now goal.now) tries result }
    ensures steps { AreSearchesCounted (tries_in (search_of rules.now given.now goal.now) tries)
        steps.old steps.new result }
{
    match derive(
        alloc,
        rules,
        given,
        &goal.goal,
        Some(&goal.wanted),
        tries,
        steps,
    ) {
        Ok(Derived { proof, outputs }) => {
            drop(outputs);
            Ok(proof)
        }
        Err(e) => Err(walk_defect(e)),
    }
}

/// The list of that derivation, which is not made as a value of its own.
pub(crate) fn find_list<L: Ledger>(
    alloc: Global,
    rules: &RuleSet,
    given: &Hyps,
    goal: &FlatGoal,
    tries: u64,
    steps: &mut Steps<L>,
) -> Result<Vec<Entry>, CheckError>
    requires few { length given.now.holds.items < 2 ^ 32 }
    requires shallow { IsShallowSearch (search_of rules.now given.now goal.now) }
    ensures answer { IsListSearched (search_of rules.now given.now goal.now) tries result }
    ensures steps { AreSearchesCounted (tries_in (search_of rules.now given.now goal.now) tries)
        steps.old steps.new result }
{
    let wanted = Some(&goal.wanted);
    match derive_list(alloc, rules, given, &goal.goal, wanted, tries, steps) {
        Ok(Listed { entries, outputs }) => {
            drop(outputs);
            Ok(entries)
        }
        Err(e) => Err(walk_defect(e)),
    }
}

/// Out of memory, or the defect of a rule whose search ends so.
fn walk_defect(e: DeriveError) -> CheckError
    ensures { result ≡ search_defect e }
{
    match e {
        DeriveError::Memory => CheckError::Memory,
        DeriveError::Underivable(blame) => CheckError::Defect(RuleRefusal::Rejected(blame)),
        DeriveError::BudgetSpent(tries) => CheckError::Defect(RuleRefusal::BudgetSpent(tries)),
        DeriveError::DepthSpent(depth) => CheckError::Defect(RuleRefusal::DepthSpent(depth)),
        DeriveError::TooDeep(depth) => CheckError::Defect(RuleRefusal::TooDeep(depth)),
        DeriveError::TooBig(nodes) => CheckError::Defect(RuleRefusal::TooBig(nodes)),
    }
}
