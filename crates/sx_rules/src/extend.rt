//! Adding rules to those of a set.

ghost use Rattle.std.specs.Prelude.{◌≡◌, ◌++◌, map, List, IfOk, IfErr};
ghost use Rattle.sx_term.specs.Sorts.{Shape};
ghost use Rattle.sx_term.specs.Shapes.{shapes};
ghost use Rattle.sx_rules.specs.Deep.{RulesAreShallow};
ghost use Rattle.sx_rules.specs.Good.{IsRuleSet, IsRuleSetRefused, names_of};
ghost use Rattle.sx_rules.specs.Views.{named, rule};
ghost use Rattle.sx_rules.specs.Sets.{shapes_in, forms_in, rules_in, names_in};
ghost use Rattle.sx_rules.specs.Made.{IsRuleSetMade};

use crate::checking::Checking;
use crate::copying::{copy_forms, copy_rules};
use crate::error::RuleError;
use crate::limits::MOST_RULES;
use crate::rule::Rule;
use crate::rule_set::RuleSet;
use std::alloc::Global;
use sx_term::{Names, NoMemory, Shapes};

/// The rules of the set and then more.
fn joined(alloc: Global, base: &RuleSet, more: Vec<Rule>) -> Result<Vec<Rule>, NoMemory>
    requires { RulesAreShallow (map rule more.items) }
    ensures rules { IfOk result (λ x. map named x.items
        ≡ rules_in base.now ++ map named more.items) }
    ensures shallow { IfOk result (λ x. RulesAreShallow (map rule x.items)) }
{
    let mut more = more;
    let mut rules = match copy_rules(alloc, &base.rules) {
        Ok(rules) => rules,
        Err(e) => {
            drop(more);
            return Err(e);
        }
    };
    match rules.append(&mut more) {
        Ok(()) => {
            drop(more);
            Ok(rules)
        }
        Err(e) => {
            drop(rules);
            drop(more);
            Err(e.into())
        }
    }
}

/// The names of the rules of the set and then more, where they are a rule set with the forms of the
/// set and with these shapes, which go on from those of the set. Only the new rules are looked at.
fn grown_names(
    alloc: Global,
    base: &RuleSet,
    all: &Shapes,
    more: &[Rule],
) -> Result<Names, RuleError>
    requires shallow { RulesAreShallow (map rule more.now) }
    requires begins { (new : List Shape) × (shapes all.now ≡ shapes_in base.now ++ new) }
    ensures good { IfOk result (λ _. IsRuleSet (shapes all.now) (forms_in base.now)
        (rules_in base.now ++ map named more.now)) }
    ensures names { IfOk result (λ names. names ≡ names_in base.now ++ names_of more.now) }
    ensures refused { IfErr result (λ e. IsRuleSetRefused (shapes all.now) (forms_in base.now)
        (rules_in base.now ++ map named more.now) e) }
{
    if base.rules.len() + more.len() > MOST_RULES {
        return Err(RuleError::TooManyRules);
    }
    let mut names = base.names.copy()?;
    let none = Names::new(alloc);
    let checking = Checking {
        alloc,
        shapes: all,
        forms: &base.forms,
        before: &none,
    };
    let checked = checking.check_rules(more, &mut names);
    drop(none);
    match checked {
        Ok(()) => Ok(names),
        Err(e) => {
            drop(names);
            Err(e)
        }
    }
}

/// The set of these rules, which have these names and are good with these shapes and with the forms
/// of the base.
fn good_set(
    alloc: Global,
    base: &RuleSet,
    all: &Shapes,
    rules: Vec<Rule>,
    names: Names,
) -> Result<RuleSet, NoMemory>
    requires good { IsRuleSet (shapes all.now) (forms_in base.now) (map named rules.items) }
    requires shallow { RulesAreShallow (map rule rules.items) }
    requires named { names ≡ names_of rules.items }
    ensures { IfOk result (λ set. (shapes_in set ≡ shapes all.now) ×
        (forms_in set ≡ forms_in base.now) × (rules_in set ≡ map named rules.items)) }
{
    let known = match copy_forms(alloc, &base.forms) {
        Ok(known) => known,
        Err(e) => {
            drop(names);
            drop(rules);
            return Err(e);
        }
    };
    let shapes = match all.copy(alloc) {
        Ok(shapes) => shapes,
        Err(e) => {
            drop(known);
            drop(names);
            drop(rules);
            return Err(e);
        }
    };
    Ok(RuleSet {
        shapes,
        forms: known,
        rules,
        names,
    })
}

/// The rules of the set and then more, as a checked set with the forms of the set and with these
/// shapes, which go on from those of the set. Only the new rules are looked at.
fn grown(alloc: Global, base: &RuleSet, all: &Shapes, more: Vec<Rule>) -> Result<RuleSet, RuleError>
    requires shallow { RulesAreShallow (map rule more.items) }
    requires begins { (new : List Shape) × (shapes all.now ≡ shapes_in base.now ++ new) }
    ensures { IsRuleSetMade (shapes all.now) (forms_in base.now)
        (rules_in base.now ++ map named more.items) result }
{
    let names = match grown_names(alloc, base, all, &more) {
        Ok(names) => names,
        Err(e) => {
            drop(more);
            return Err(e);
        }
    };
    let rules = match joined(alloc, base, more) {
        Ok(rules) => rules,
        Err(e) => {
            drop(names);
            return Err(e.into());
        }
    };
    match good_set(alloc, base, all, rules, names) {
        Ok(set) => Ok(set),
        Err(e) => Err(e.into()),
    }
}

/// The rules of the set and then more, as a checked set with the forms of the set and with these
/// shapes. All the rules are looked at.
fn made(alloc: Global, base: &RuleSet, all: &Shapes, more: Vec<Rule>) -> Result<RuleSet, RuleError>
    requires { RulesAreShallow (map rule more.items) }
    ensures { IsRuleSetMade (shapes all.now) (forms_in base.now)
        (rules_in base.now ++ map named more.items) result }
{
    let rules = joined(alloc, base, more)?;
    match copy_forms(alloc, &base.forms) {
        Ok(known) => RuleSet::make(alloc, all, known, rules),
        Err(e) => {
            drop(rules);
            Err(e.into())
        }
    }
}

impl RuleSet {
    /// The rules of the set and then more, as a checked set with the forms of the base and with
    /// these shapes. The refusals are those of `make`, of all these rules. Where the shapes go on
    /// from those of the base, only the new rules are looked at.
    pub fn extend(
        alloc: Global,
        base: &RuleSet,
        all: &Shapes,
        more: Vec<Rule>,
    ) -> Result<RuleSet, RuleError>
        requires { RulesAreShallow (map rule more.items) }
        ensures { IsRuleSetMade (shapes all.now) (forms_in base.now)
            (rules_in base.now ++ map named more.items) result }
    {
        if all.goes_on_from(&base.shapes) {
            return grown(alloc, base, all, more);
        }
        made(alloc, base, all, more)
    }
}
