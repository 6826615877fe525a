//! Checking more rules after those of a set.

ghost use Rattle.std.specs.Prelude.{◌≡◌, ◌++◌, map, List};
ghost use Rattle.sx_term.specs.Shapes.{shapes};
ghost use Rattle.sx_term.specs.Sorts.{Shape};
ghost use Rattle.sx_rules.specs.Deep.{RulesAreShallow};
ghost use Rattle.sx_rules.specs.Views.{named, rule};
ghost use Rattle.sx_rules.specs.Sets.{shapes_in, forms_in, rules_in};
ghost use Rattle.sx_rules.specs.Admitted.{IsAdmitted};

use crate::checking::Checking;
use crate::error::RuleError;
use crate::limits::MOST_RULES;
use crate::rule::Rule;
use crate::rule_set::RuleSet;
use std::alloc::Global;
use sx_term::{Names, Shapes};

impl RuleSet {
    /// Whether the rules of the set and then more are a rule set with the forms of the set and with
    /// these shapes, which go on from those of the set. The refusals are those of `make`, of all
    /// these rules. Only the new rules are looked at.
    pub fn admits(&self, alloc: Global, all: &Shapes, more: &[Rule]) -> Result<(), RuleError>
        requires shallow { RulesAreShallow (map rule more.now) }
        requires begins { (new : List Shape) × (shapes all.now ≡ shapes_in self.now ++ new) }
        ensures { IsAdmitted (shapes all.now) (forms_in self.now)
            (rules_in self.now ++ map named more.now) result }
    {
        if self.rules.len() + more.len() > MOST_RULES {
            return Err(RuleError::TooManyRules);
        }
        let checking = Checking {
            alloc,
            shapes: all,
            forms: &self.forms,
            before: &self.names,
        };
        let mut names = Names::new(alloc);
        let checked = checking.check_rules(more, &mut names);
        drop(names);
        checked
    }
}
