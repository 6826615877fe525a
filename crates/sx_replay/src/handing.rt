//! Outputs, and the rules that wait for them.

ghost use Rattle.std.specs.Prelude.{IfOk, length, map};
ghost use Rattle.sx_rules.specs.Deep.{RulesAreShallow};
ghost use Rattle.sx_arena.specs.Arena.{tree_at, AreBelow};
ghost use Rattle.sx_arena.specs.Pairs.{ArePairs};
ghost use Rattle.sx_arena.specs.Views.{rules_of, set_modes};
ghost use Rattle.sx_replay.specs.Machine.{hand_on as handed};
ghost use Rattle.sx_replay.specs.Reader.{IsReplayReader, WaitsInReader, IsReplayResumed, IsMoved};
ghost use Rattle.sx_replay.specs.Reader.{reader_trees};
ghost use Rattle.sx_replay.specs.Reader.{base_trees, stack};

use crate::given::Given;
use crate::premise_loop::premises;
use crate::reader::{Reader, Waiting};
use crate::step::Step;
use sx_arena::{Side, fit_places, keep, rule_at};
use sx_rules::Premise;
use sx_term::NoMemory;

/// What comes of outputs at the rule that waits for them.
fn resume(
    given: &Given,
    reader: &mut Reader,
    waiting: Waiting,
    outputs: &[usize],
) -> Result<Step, NoMemory>
    requires shallow { RulesAreShallow (rules_of given.now.rules.now) }
    requires reader { IsReplayReader (rules_of given.now.rules.now) reader.old }
    requires pairs { ArePairs (length (reader_trees reader.old)) given.now.pairs.now }
    requires waits { WaitsInReader (rules_of given.now.rules.now)
        (length reader.old.binds.cells.items)
        waiting }
    requires outputs { AreBelow (length (reader_trees reader.old)) outputs.now }
    ensures { IfOk result (λ step. IsReplayResumed (set_modes given.now.rules.now)
        (rules_of given.now.rules.now) given.now.pairs.now reader.old reader.new waiting outputs.now
        step) }
{
    let rule = rule_at(given.rules, waiting.rule);
    match &rule.premises[waiting.premise] {
        Premise::Apart(_, _) => unreachable!(),
        Premise::Holds(judgement) => {
            let side = Side::new(given.rules, judgement, true);
            let fit = fit_places(
                &reader.arena,
                &mut reader.binds,
                waiting.env,
                &side,
                outputs,
            )?;
            match fit {
                None => Ok(Step::Clash),
                Some(env) => premises(given, rule, waiting.rule, waiting.premise + 1, reader, env),
            }
        }
    }
}

/// What comes of outputs that are handed to the rules that wait, from the last one on. What was
/// made since a rule began to wait is dropped when it goes on, but for the outputs.
pub(crate) fn hand_on(
    given: &Given,
    reader: &mut Reader,
    outputs: Vec<usize>,
) -> Result<Step, NoMemory>
    requires shallow { RulesAreShallow (rules_of given.now.rules.now) }
    requires reader { IsReplayReader (rules_of given.now.rules.now) reader.old }
    requires pairs { ArePairs (length (base_trees reader.old)) given.now.pairs.now }
    requires outputs { AreBelow (length (reader_trees reader.old)) outputs.items }
    ensures { IfOk result (λ step. IsMoved (set_modes given.now.rules.now)
        (rules_of given.now.rules.now) given.now.pairs.now reader.old reader.new
        (λ hyps. handed (set_modes given.now.rules.now) hyps
        (stack (set_modes given.now.rules.now) (rules_of given.now.rules.now) reader.old)
        (map (tree_at (reader_trees reader.old)) outputs.items) reader.old.noted) step) }
{
    let mut outputs = outputs;
    while let Some(waiting) = reader.waiting.pop() {
        reader.binds.cut(waiting.mark);
        outputs = keep(given.alloc, &mut reader.arena, waiting.terms, outputs)?;
        match resume(given, reader, waiting, &outputs)? {
            Step::Done(made) => outputs = made,
            other => return Ok(other),
        }
    }
    Ok(Step::Done(outputs))
}
