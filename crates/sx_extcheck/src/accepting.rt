//! Extensions are added to accepted sets.

ghost use Rattle.std.specs.Prelude.{◌≡◌, ◌++◌, ◌^◌, ◌<◌, IfErr, map, option_map, length};
ghost use Rattle.std.specs.List.{AllByRecursion};
ghost use Rattle.sx_term.specs.Shapes.{shapes};
ghost use Rattle.sx_term.specs.Term.{tree};
ghost use Rattle.sx_rules.specs.Deep.{AreShallow, RulesAreShallow};
ghost use Rattle.sx_rules.specs.Good.{IsRuleSet};
ghost use Rattle.sx_rules.specs.Sets.{shapes_in, forms_in, rules_in};
ghost use Rattle.sx_rules.specs.Views.{rule};
ghost use Rattle.sx_plain.specs.Views.{table_of};
ghost use Rattle.sx_rewrite.specs.AcceptedView.{signature};
ghost use Rattle.sx_rewrite.specs.Extensions.{FitsRules};
ghost use Rattle.sx_rewrite.specs.ExtensionView.{ext_rule, named_rules};
ghost use Rattle.sx_extcheck.specs.Accepts.{check_for, WereChecked, IsAcceptRefusal};
ghost use Rattle.sx_extcheck.specs.Accepts.{IsCheckAnswered, RejectsUnsound};
ghost use Rattle.sx_extcheck.specs.CheckView.{CanCheck};
ghost use Rattle.sx_extcheck.specs.FlatTerms.{listed_term};

use crate::accept_error::AcceptError;
use crate::budgets::Budgets;
use crate::check_error::CheckError;
use crate::checking::Checking;
use crate::refused::Refused;
use crate::rule_checking::check_rule;
use std::alloc::Global;
use std::sync::ledger::Ledger;
use sx_rewrite::{Accepted, ExtensionData, Flat};
use sx_term::{Shapes, Steps, Text};

/// Adds the extension, whose rules have the shapes, to the set. Its rules are checked one after
/// the other against the set, and each is stored with its flat body and its certificate: the
/// first derivation of its flat conclusion from its flat premises by the base rules, or, where
/// its body has typed syntax of the extensions before, what the first derivation by these and the
/// plain rules is lowered to. Each try is counted in `steps`, and at most `budgets.tries` are
/// made for a rule.
///
/// The first rule that is refused ends it. After each refusal the set is as it was given:
///
/// - `Memory`: memory is lacking.
/// - `Rule`: the rule with this name is refused, and each rule before it is not.
pub fn accept<L: Ledger>(
    alloc: Global,
    so_far: Accepted,
    all: &Shapes,
    ext: ExtensionData,
    budgets: Budgets,
    steps: &mut Steps<L>,
) -> Result<Accepted, Refused>
    requires good { IsRuleSet (shapes all.now) (forms_in so_far.rules)
        (rules_in so_far.rules ++ named_rules ext) }
    requires shallow { RulesAreShallow (map (λ e. rule e.rule) ext.rules.items) }
    requires bodies { AllByRecursion
        (λ e. AreShallow (listed_term (option_map tree e.body))) ext.rules.items }
    requires few { AllByRecursion (λ e. length e.rule.premises.items < 2 ^ 32) ext.rules.items }
    requires labels { ext.plain.base ≡ so_far.plain.base }
    requires fits { FitsRules (signature so_far) (shapes_in so_far.base) (shapes_in so_far.rules)
        (shapes all.now) (table_of so_far.plain) (table_of ext.plain)
        (map ext_rule ext.rules.items) }
    ensures answer { IsCheckAnswered so_far (shapes all.now) ext (check_for so_far ext budgets)
        steps.old steps.new result }
    ensures unsound { IfErr result
        (λ refused. RejectsUnsound (check_for so_far ext budgets) ext.rules.items refused.error) }
{
    so_far.facts();
    so_far.base_rules().facts();
    match check_rules(alloc, &so_far, &ext, budgets, steps) {
        Ok(flats) => match so_far.add(all, ext, flats) {
            Ok(new) => Ok(new),
            Err(set) => Err(Refused {
                set,
                error: AcceptError::Memory,
            }),
        },
        Err(error) => {
            drop(ext);
            Err(Refused { set: so_far, error })
        }
    }
}

/// What is stored of each rule of the extension, one after the other. The first rule that is
/// refused ends it.
fn check_rules<L: Ledger>(
    alloc: Global,
    set: &Accepted,
    ext: &ExtensionData,
    budgets: Budgets,
    steps: &mut Steps<L>,
) -> Result<Vec<Flat>, AcceptError>
    requires { AllByRecursion (CanCheck set.now ext.now.plain) ext.now.rules.items }
    ensures { WereChecked (check_for set.now ext.now budgets) ext.now.rules.items
        steps.old steps.new result }
{
    let checking = Checking {
        alloc,
        set,
        plain: &ext.plain,
        budgets,
    };
    let mut flats = Vec::new(alloc);
    for rule in &ext.rules {
        match check_rule(&checking, rule, steps) {
            Ok(flat) => flats.push(flat)?,
            Err(e) => {
                drop(flats);
                return Err(refusal(alloc, &rule.rule.name, e));
            }
        }
    }
    Ok(flats)
}

/// Why the rule with this name is refused, or out of memory.
fn refusal(alloc: Global, name: &Text, e: CheckError) -> AcceptError
    ensures { IsAcceptRefusal name.now e result }
{
    match e {
        CheckError::Memory => AcceptError::Memory,
        CheckError::Defect(defect) => match name.copy(alloc) {
            Ok(name) => AcceptError::Rule(name, defect),
            Err(_) => {
                drop(defect);
                AcceptError::Memory
            }
        },
    }
}
