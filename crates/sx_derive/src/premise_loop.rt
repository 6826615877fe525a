//! The premises of a rule.

ghost use Rattle.std.specs.Prelude.{◌≡◌, ◌≤◌, Some, IfOk, length, map, drop, slice_get};
ghost use Rattle.sx_rules.specs.Deep.{RuleIsShallow};
ghost use Rattle.sx_arena.specs.Pairs.{ArePairs};
ghost use Rattle.sx_arena.specs.Views.{rule_of, rules_of, set_modes, premise_of};
ghost use Rattle.sx_derive.specs.Givens.{IsStoreOf};
ghost use Rattle.sx_derive.specs.Store.{store_trees};
ghost use Rattle.sx_derive.specs.Premises.{IsPremises};

use crate::chains::Waiting;
use crate::given::Given;
use crate::step::{Step, asked, concluded};
use crate::store::Store;
use sx_arena::{Chain, instances_apart};
use sx_rules::{Premise, Rule};
use sx_term::NoMemory;

/// What comes of the rule's premises from the first on that it waits for.
pub(crate) fn premises(
    given: &Given,
    rule: &Rule,
    from: Waiting,
    store: &mut Store,
) -> Result<Step, NoMemory>
    requires found { slice_get (rules_of given.now.rules.now) from.rule
        ≡ Some (rule_of rule.now) }
    requires shallow { RuleIsShallow (rule_of rule.now) }
    requires store { IsStoreOf given.now store.old }
    requires pairs { ArePairs (length (store_trees store.old)) given.now.pairs.now }
    requires env { from.env ≤ length store.old.binds.cells.items }
    requires kids { from.kids ≤ length store.old.kids.items }
    requires frames { from.before ≤ length store.old.frames.items }
    requires until { store.old.until ≤ from.before }
    ensures { IfOk result
        (λ step. IsPremises (set_modes given.now.rules.now) (rules_of given.now.rules.now)
        given.now.pairs.now store.old store.new from.rule (rule_of rule.now) from.levels from.env
        from.kids from.before (drop from.premise (map premise_of rule.now.premises.items)) step) }
{
    let pairs = given.pairs;
    for k in from.premise..rule.premises.len() {
        match &rule.premises[k] {
            Premise::Apart(first, second) => {
                let chain = Chain {
                    binds: &store.binds,
                    env: from.env,
                };
                if !instances_apart(given.alloc, &mut store.arena, &chain, pairs, first, second)? {
                    return Ok(Step::Nothing);
                }
            }
            Premise::Holds(judgement) => {
                let waiting = Waiting {
                    rule: from.rule,
                    premise: k,
                    env: from.env,
                    kids: from.kids,
                    levels: from.levels,
                    before: from.before,
                };
                return asked(given, judgement, store, waiting);
            }
        }
    }
    concluded(given, rule, from, store)
}
