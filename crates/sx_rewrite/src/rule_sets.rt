//! Rule sets with more rules.

ghost use Rattle.std.specs.Prelude.{◌≡◌, ◌++◌, IfOk, map};
ghost use Rattle.sx_term.specs.Shapes.{shapes};
ghost use Rattle.sx_rules.specs.Deep.{RulesAreShallow};
ghost use Rattle.sx_rules.specs.Good.{IsRuleSet};
ghost use Rattle.sx_rules.specs.Sets.{shapes_in, forms_in, rules_in};
ghost use Rattle.sx_rules.specs.Views.{named, rule};

use std::alloc::Global;
use sx_rules::{Rule, RuleError, RuleSet};
use sx_term::{NoMemory, Shapes};

/// The rules of the set and then more, which are good with these shapes.
/// The one refusal is out of memory.
pub(crate) fn with_more(
    alloc: Global,
    set: &RuleSet,
    all: &Shapes,
    more: Vec<Rule>,
) -> Result<RuleSet, NoMemory>
    requires shallow { RulesAreShallow (map rule more.items) }
    requires good { IsRuleSet (shapes all.now) (forms_in set.now)
        (rules_in set.now ++ map named more.items) }
    ensures { IfOk result (λ x. (shapes_in x ≡ shapes all.now) × (forms_in x ≡ forms_in set.now)
        × (rules_in x ≡ rules_in set.now ++ map named more.items)) }
{
    match RuleSet::extend(alloc, set, all, more) {
        Ok(extended) => Ok(extended),
        Err(RuleError::Memory) => Err(NoMemory::Memory),
        Err(RuleError::TooManyRules) => unreachable!(),
        Err(RuleError::TooManyVars(_)) => unreachable!(),
        Err(RuleError::SameRule(_)) => unreachable!(),
        Err(RuleError::SortDiffers(_)) => unreachable!(),
        Err(RuleError::Discipline(_, _, _)) => unreachable!(),
        Err(RuleError::NotModed(_, _)) => unreachable!(),
    }
}

/// An equal set. The one refusal is out of memory.
pub(crate) fn copied(alloc: Global, set: &RuleSet) -> Result<RuleSet, NoMemory>
    ensures { IfOk result (λ x. (shapes_in x ≡ shapes_in set.now) × (forms_in x ≡ forms_in set.now)
        × (rules_in x ≡ rules_in set.now)) }
{
    set.facts();
    with_more(alloc, set, set.shapes(), Vec::new(alloc))
}
