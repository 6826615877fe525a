//! Checking rules one after the other.

ghost use Rattle.std.specs.Prelude.{◌≡◌, ◌↔◌, ◌++◌, map, IsTrue, OnOk};
ghost use Rattle.sx_term.specs.Shapes.{shapes};
ghost use Rattle.sx_rules.specs.Deep.{RuleIsShallow, RulesAreShallow};
ghost use Rattle.sx_rules.specs.Views.{forms, named, rule};
ghost use Rattle.sx_rules.specs.Good.{IsAmong, IsChecked, AreChecked, names_of};

use crate::discipline::broken_part;
use crate::error::RuleError;
use crate::fitting::rule_fits;
use crate::modes::unbound;
use crate::rule::{Form, Rule};
use std::alloc::Global;
use sx_term::{MOST_VARIABLES, Names, Shapes};

/// What rules are checked against: the shapes and the forms that they are of, and the names of the
/// rules before them.
#[derive(Clone, Copy)]
pub(crate) struct Checking<'a> {
    pub(crate) alloc: Global,
    pub(crate) shapes: &'a Shapes,
    pub(crate) forms: &'a [Form],
    pub(crate) before: &'a Names,
}

impl<'a> Checking<'a> {
    /// Whether the name is one of those before, or of these.
    fn is_taken(&self, seen: &Names, name: &[u8]) -> bool
        ensures { IsTrue result ↔ IsAmong name.now (self.now.before.now ++ seen.now) }
    {
        self.before.has(name) || seen.has(name)
    }

    /// Checks one rule, after those before and those with these names.
    fn check_rule(&self, seen: &Names, it: &Rule) -> Result<(), RuleError>
        requires { RuleIsShallow (rule it.now) }
        ensures { IsChecked (shapes self.now.shapes.now) (forms self.now.forms.now)
            (self.now.before.now ++ seen.now) (named it.now) result }
    {
        let alloc = self.alloc;
        if it.vars.len() > MOST_VARIABLES {
            return Err(RuleError::TooManyVars(it.name.copy(alloc)?));
        }
        if self.is_taken(seen, it.name.bytes()) {
            return Err(RuleError::SameRule(it.name.copy(alloc)?));
        }
        if !rule_fits(self.shapes, self.forms, it) {
            return Err(RuleError::SortDiffers(it.name.copy(alloc)?));
        }
        if let Some((part, premise)) = broken_part(alloc, self.forms, it)? {
            return Err(RuleError::Discipline(it.name.copy(alloc)?, part, premise));
        }
        if let Some(variable) = unbound(alloc, self.forms, it)? {
            return Err(RuleError::NotModed(it.name.copy(alloc)?, variable));
        }
        Ok(())
    }

    /// Checks the rules in order, after those before and those with these names, and notes their
    /// names behind these.
    pub(crate) fn check_rules(&self, rules: &[Rule], names: &mut Names) -> Result<(), RuleError>
        requires { RulesAreShallow (map rule rules.now) }
        ensures checked { AreChecked (shapes self.now.shapes.now) (forms self.now.forms.now)
            (self.now.before.now ++ names.old) (map named rules.now) result }
        ensures names { OnOk result (names.new ≡ names.old ++ names_of rules.now) }
    {
        for i in 0..rules.len() {
            let it = &rules[i];
            match self.check_rule(names, it) {
                Ok(()) => {}
                Err(e) => return Err(e),
            }
            names.push(self.alloc, it.name.bytes())?;
        }
        Ok(())
    }
}
