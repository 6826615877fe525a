//! Making a rule set.

ghost use Rattle.std.specs.Prelude.{◌≡◌, [], map, Err, IfOk, IfErr};
ghost use Rattle.sx_term.specs.Shapes.{shapes};
ghost use Rattle.sx_rules.specs.Deep.{RulesAreShallow};
ghost use Rattle.sx_rules.specs.Good.{AllGood, AreChecked, names_of};
ghost use Rattle.sx_rules.specs.Views.{forms, named, rule};
ghost use Rattle.sx_rules.specs.Made.{IsRuleSetMade};

use crate::checking::Checking;
use crate::error::RuleError;
use crate::limits::MOST_RULES;
use crate::rule::{Form, Rule};
use crate::rule_set::RuleSet;
use std::alloc::Global;
use sx_term::{Names, Shapes};

/// The names of the rules, where each is good after those before it.
fn checked_names(
    alloc: Global,
    all: &Shapes,
    known: &[Form],
    rules: &[Rule],
) -> Result<Names, RuleError>
    requires { RulesAreShallow (map rule rules.now) }
    ensures good { IfOk result (λ names. AllGood (shapes all.now) (forms known.now) []
        (map named rules.now) × (names ≡ names_of rules.now)) }
    ensures refused { IfErr result (λ e. AreChecked (shapes all.now) (forms known.now) []
        (map named rules.now) (Err e)) }
{
    let none = Names::new(alloc);
    let mut names = Names::new(alloc);
    let checking = Checking {
        alloc,
        shapes: all,
        forms: known,
        before: &none,
    };
    match checking.check_rules(rules, &mut names) {
        Ok(()) => Ok(names),
        Err(e) => {
            drop(names);
            Err(e)
        }
    }
}

impl RuleSet {
    /// The rules as a checked set, or the first breach.
    pub fn make(
        alloc: Global,
        all: &Shapes,
        known: Vec<Form>,
        rules: Vec<Rule>,
    ) -> Result<RuleSet, RuleError>
        requires { RulesAreShallow (map rule rules.items) }
        ensures { IsRuleSetMade (shapes all.now) (forms known.items)
            (map named rules.items) result }
    {
        if rules.len() > MOST_RULES {
            drop(rules);
            drop(known);
            return Err(RuleError::TooManyRules);
        }
        let names = match checked_names(alloc, all, &known, &rules) {
            Ok(names) => names,
            Err(e) => {
                drop(rules);
                drop(known);
                return Err(e);
            }
        };
        let shapes = match all.copy(alloc) {
            Ok(shapes) => shapes,
            Err(e) => {
                drop(names);
                drop(rules);
                drop(known);
                return Err(e.into());
            }
        };
        Ok(RuleSet {
            shapes,
            forms: known,
            rules,
            names,
        })
    }
}
