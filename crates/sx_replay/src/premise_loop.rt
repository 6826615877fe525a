//! The premises of a rule.

ghost use Rattle.std.specs.Prelude.{◌≡◌, ◌≤◌, Some, IfOk, length, map, drop, slice_get};
ghost use Rattle.sx_rules.specs.Deep.{RuleIsShallow};
ghost use Rattle.sx_arena.specs.Pairs.{ArePairs};
ghost use Rattle.sx_arena.specs.Views.{rule_of, rules_of, set_modes, premise_of};
ghost use Rattle.sx_replay.specs.Reader.{IsReplayReader, IsReplayPremises, reader_trees};

use crate::given::Given;
use crate::reader::{Reader, Waiting, make};
use crate::step::Step;
use sx_arena::{Chain, instances_apart};
use sx_rules::{Premise, Rule};
use sx_term::NoMemory;

/// What comes of the premises from a number on.
pub(crate) fn premises(
    given: &Given,
    rule: &Rule,
    number: u32,
    from: usize,
    reader: &mut Reader,
    env: usize,
) -> Result<Step, NoMemory>
    requires found { slice_get (rules_of given.now.rules.now) number ≡ Some (rule_of rule.now) }
    requires shallow { RuleIsShallow (rule_of rule.now) }
    requires reader { IsReplayReader (rules_of given.now.rules.now) reader.old }
    requires pairs { ArePairs (length (reader_trees reader.old)) given.now.pairs.now }
    requires env { env ≤ length reader.old.binds.cells.items }
    ensures { IfOk result (λ step. IsReplayPremises (set_modes given.now.rules.now)
        (rules_of given.now.rules.now) given.now.pairs.now reader.old reader.new (rule_of rule.now)
        env
        (drop from (map premise_of rule.now.premises.items)) step) }
{
    let pairs = given.pairs;
    for k in from..rule.premises.len() {
        match &rule.premises[k] {
            Premise::Apart(first, second) => {
                let chain = Chain {
                    binds: &reader.binds,
                    env,
                };
                if !instances_apart(given.alloc, &mut reader.arena, &chain, pairs, first, second)? {
                    return Ok(Step::Clash);
                }
            }
            Premise::Holds(judgement) => {
                let terms = make(given.alloc, given.rules, judgement, false, reader, env)?;
                let mark = reader.mark();
                let held = reader.arena.len();
                reader.waiting.push(Waiting {
                    rule: number,
                    premise: k,
                    env,
                    mark,
                    terms: held,
                })?;
                return Ok(Step::Asks {
                    form: judgement.form,
                    terms,
                });
            }
        }
    }
    Ok(Step::Done(make(
        given.alloc,
        given.rules,
        &rule.conclusion,
        true,
        reader,
        env,
    )?))
}
