//! What a rule set has.

ghost use Rattle.std.specs.Prelude.{◌≡◌, ◌<◌, map, IfOk, MatchOption, length, slice_get};
ghost use Rattle.std.specs.Prelude.{Some, None};
ghost use Rattle.sx_term.specs.Shapes.{shapes};
ghost use Rattle.sx_rules.specs.Views.{forms, named, rule_name, modes_of, sorts_of};
ghost use Rattle.sx_rules.specs.Sets.{shapes_in, forms_in, rules_in, bare_rules_in, names_in};
ghost use Rattle.sx_rules.specs.Good.{IsAmong, IsRuleSet, names_of};
ghost use Rattle.sx_rules.specs.Modes.{AllModed};
ghost use Rattle.sx_rules.specs.RuleNames.{AreNamesDistinct};
ghost use Rattle.sx_rules.specs.Sorts.{RulesAreSorted};
ghost use Rattle.sx_rules.specs.Deep.{RulesAreShallow};

use crate::rule::{Form, Rule};
use crate::rule_set::RuleSet;
use std::alloc::Global;
use sx_term::{NoMemory, Shapes, Text};

impl RuleSet {
    /// The forms.
    pub fn forms(&self) -> &[Form]
        ensures { forms result.now ≡ forms self.now.forms.items }
    {
        &self.forms
    }

    /// The shapes that the set was made with.
    pub fn shapes(&self) -> &Shapes
        ensures { shapes result.now ≡ shapes self.now.shapes }
    {
        &self.shapes
    }

    /// The rule with this number, or None where there is no such rule.
    pub fn rule(&self, number: u32) -> Option<&Rule>
        ensures { MatchOption result (slice_get (map named self.now.rules.items) number ≡ None)
            (λ r. slice_get (map named self.now.rules.items) number ≡ Some (named r.now)) }
    {
        let i = number as usize;
        if i < self.rules.len() {
            return Some(&self.rules[i]);
        }
        None
    }

    /// How many rules there are, at most 4,096.
    pub fn rule_count(&self) -> u32
        ensures { result ≡ length (bare_rules_in self.now) }
    {
        self.facts();
        self.rules.len() as u32
    }

    /// An equal name to that of the rule with this number; empty where there is no such rule.
    pub fn name_of(&self, alloc: Global, number: u32) -> Result<Text, NoMemory>
        ensures { IfOk result (λ name. name ≡ rule_name (rules_in self.now) number) }
    {
        match self.rule(number) {
            Some(rule) => rule.name.copy(alloc),
            None => Text::of_str(alloc, ""),
        }
    }

    /// The number of the rule with this name, or None where there is no such rule.
    pub fn find(&self, name: &Text) -> Option<u32>
        ensures { MatchOption result (IsAmong name.now (names_of self.now.rules.items) → ⊥)
            (λ n. slice_get (names_of self.now.rules.items) n ≡ Some name.now) }
    {
        self.find_bytes(name.bytes())
    }

    /// The number of the rule whose name has these bytes.
    pub(crate) fn find_bytes(&self, name: &[u8]) -> Option<u32>
        ensures { MatchOption result (IsAmong name.now (names_of self.now.rules.items) → ⊥)
            (λ n. slice_get (names_of self.now.rules.items) n ≡ Some name.now) }
    {
        match self.names.number(name) {
            Some(number) => Some(number as u32),
            None => None,
        }
    }

    /// What holds of every rule set: at most 4,096 rules of distinct names, each well sorted,
    /// disciplined and moded, and no term of them deeper than 1,000.
    pub fn facts(&self)
        ensures good { IsRuleSet (shapes_in self.now) (forms_in self.now) (rules_in self.now) }
        ensures moded { AllModed (modes_of (forms_in self.now)) (bare_rules_in self.now) }
        ensures sorted { RulesAreSorted (shapes_in self.now) (sorts_of (forms_in self.now))
            (bare_rules_in self.now) }
        ensures shallow { RulesAreShallow (bare_rules_in self.now) }
        ensures distinct { AreNamesDistinct (names_in self.now) }
    {}
}
