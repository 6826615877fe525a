//! Checking the rules of an extension after those before it.

ghost use Rattle.std.specs.Prelude.{◌≡◌, ◌++◌, List, map, IfOk, IfErr};
ghost use Rattle.sx_term.specs.Shapes.{shapes};
ghost use Rattle.sx_term.specs.Sorts.{Shape};
ghost use Rattle.sx_rules.specs.Deep.{RulesAreShallow};
ghost use Rattle.sx_rules.specs.Good.{IsRuleSet};
ghost use Rattle.sx_rules.specs.Sets.{forms_in};
ghost use Rattle.sx_rules.specs.Views as view;
ghost use Rattle.sx_extension.specs.Grounds.{ground};
ghost use Rattle.sx_extension.specs.Stages.{IsSetRefusal};

use crate::before::Before;
use std::alloc::Global;
use sx_language::{ReadRules, rule_error};
use sx_notation::NotationError;
use sx_outline::RuleLines;
use sx_term::Shapes;

/// Whether the rules that were read of these lines are a rule set after those before the extension,
/// or why they are none, with the name of a variable that is not bound.
pub(crate) fn check_rule_set(
    alloc: Global,
    before: &Before,
    all: &Shapes,
    lines: &[RuleLines],
    read: &ReadRules,
) -> Result<(), NotationError>
    requires shallow { RulesAreShallow (map view.rule read.now.rules.items) }
    requires begins { (new : List Shape) ×
        (shapes all.now ≡ (ground before.now).shapes ++ new) }
    ensures good { IfOk result (λ _. IsRuleSet (shapes all.now) (forms_in before.now.rules.now)
        ((ground before.now).rules ++ map view.named read.now.rules.items)) }
    ensures refused { IfErr result (IsSetRefusal (shapes all.now) (forms_in before.now.rules.now)
        ((ground before.now).rules ++ map view.named read.now.rules.items)
        (map (λ l. l.name) lines.now) read.now.names.items) }
{
    match before.rules.admits(alloc, all, &read.rules) {
        Ok(()) => Ok(()),
        Err(error) => Err(rule_error(alloc, lines, &read.names, error)),
    }
}
