//! An entry against a goal.

ghost use Rattle.std.specs.Prelude.{◌≡◌, IfOk, Some, length, slice_get};
ghost use Rattle.sx_rules.specs.Deep.{RulesAreShallow};
ghost use Rattle.sx_rules.specs.Rules.{Judgement};
ghost use Rattle.sx_rules.specs.EntryView.{entry as entry_of};
ghost use Rattle.sx_arena.specs.Arena.{AreBelow};
ghost use Rattle.sx_arena.specs.Facts.{IsFact, AreFacts};
ghost use Rattle.sx_arena.specs.Pairs.{ArePairs};
ghost use Rattle.sx_arena.specs.Views.{rules_of, set_modes, rule_of};
ghost use Rattle.std.specs.Prelude.{List, []};
ghost use Rattle.sx_replay.specs.Machine.{rule_move, given_move, entry_move, ends};
ghost use Rattle.sx_replay.specs.Reader.{IsReplayReader, IsMoved, reader_trees, base_trees, stack};
ghost use Rattle.sx_replay.specs.Reader.{replay_goal, replay_hypotheses, IsReplayStep};
ghost use Rattle.sx_replay.specs.Reader.{ReplayGoesOn};

use crate::given::Given;
use crate::handing::hand_on;
use crate::premise_loop::premises;
use crate::reader::Reader;
use crate::step::Step;
use sx_arena::{Fact, Side, copied, fit_places, same_numbers};
use sx_rules::{Entry, Rule};
use sx_term::NoMemory;

/// What comes of a rule against a goal.
fn try_rule(
    given: &Given,
    rule: &Rule,
    number: u32,
    reader: &mut Reader,
    form: u32,
    terms: &[usize],
) -> Result<Step, NoMemory>
    requires found { slice_get (rules_of given.now.rules.now) number ≡ Some (rule_of rule.now) }
    requires shallow { RulesAreShallow (rules_of given.now.rules.now) }
    requires reader { IsReplayReader (rules_of given.now.rules.now) reader.old }
    requires pairs { ArePairs (length (base_trees reader.old)) given.now.pairs.now }
    requires terms { AreBelow (length (reader_trees reader.old)) terms.now }
    ensures { IfOk result (λ step. IsMoved (set_modes given.now.rules.now)
        (rules_of given.now.rules.now) given.now.pairs.now reader.old reader.new
        (λ hyps. rule_move (set_modes given.now.rules.now) hyps (rule_of rule.now)
        (replay_goal reader.old form terms.now)
        (stack (set_modes given.now.rules.now) (rules_of given.now.rules.now) reader.old)
        reader.old.noted) step) }
{
    if rule.conclusion.form != form {
        return Ok(Step::Clash);
    }
    let side = Side::new(given.rules, &rule.conclusion, false);
    let fit = fit_places(&reader.arena, &mut reader.binds, 0, &side, terms)?;
    match fit {
        None => Ok(Step::Clash),
        Some(env) => match premises(given, rule, number, 0, reader, env)? {
            Step::Done(outputs) => hand_on(given, reader, outputs),
            other => Ok(other),
        },
    }
}

/// What comes of a hypothesis against a goal.
fn try_given(
    given: &Given,
    fact: &Fact,
    reader: &mut Reader,
    form: u32,
    terms: &[usize],
) -> Result<Step, NoMemory>
    requires shallow { RulesAreShallow (rules_of given.now.rules.now) }
    requires reader { IsReplayReader (rules_of given.now.rules.now) reader.old }
    requires pairs { ArePairs (length (base_trees reader.old)) given.now.pairs.now }
    requires terms { AreBelow (length (reader_trees reader.old)) terms.now }
    requires fact { (j : Judgement) × IsFact (set_modes given.now.rules.now)
        (reader_trees reader.old) j fact.now }
    ensures { IfOk result (λ step. (j : Judgement) →
        IsFact (set_modes given.now.rules.now) (reader_trees reader.old) j fact.now →
        IsMoved (set_modes given.now.rules.now) (rules_of given.now.rules.now) given.now.pairs.now
        reader.old reader.new
        (λ hyps. given_move (set_modes given.now.rules.now) hyps j (replay_goal reader.old form
        terms.now)
        (stack (set_modes given.now.rules.now) (rules_of given.now.rules.now) reader.old)
        reader.old.noted) step) }
{
    if fact.form != form {
        return Ok(Step::Clash);
    }
    if !same_numbers(&fact.inputs, terms) {
        return Ok(Step::Clash);
    }
    let outputs = copied(given.alloc, &fact.outputs)?;
    hand_on(given, reader, outputs)
}

/// What comes of an entry at a goal.
pub(crate) fn try_entry(
    given: &Given,
    reader: &mut Reader,
    entry: Entry,
    form: u32,
    terms: &[usize],
) -> Result<Step, NoMemory>
    requires shallow { RulesAreShallow (rules_of given.now.rules.now) }
    requires reader { IsReplayReader (rules_of given.now.rules.now) reader.old }
    requires pairs { ArePairs (length (base_trees reader.old)) given.now.pairs.now }
    requires terms { AreBelow (length (reader_trees reader.old)) terms.now }
    requires facts { (js : List Judgement) ×
        AreFacts (set_modes given.now.rules.now) (base_trees reader.old) js given.now.facts.now }
    ensures { IfOk result (λ step. (js : List Judgement) →
        AreFacts (set_modes given.now.rules.now) (base_trees reader.old) js given.now.facts.now →
        ReplayGoesOn (rules_of given.now.rules.now) reader.old reader.new
        × IsReplayStep (set_modes given.now.rules.now) (rules_of given.now.rules.now) [] reader.new
        ends
        step
        (entry_move (set_modes given.now.rules.now)
        (replay_hypotheses given.now.pairs.now reader.old js)
        (rules_of given.now.rules.now)
        (entry_of entry) (replay_goal reader.old form terms.now)
        (stack (set_modes given.now.rules.now) (rules_of given.now.rules.now) reader.old)
        reader.old.noted)) }
{
    match entry {
        Entry::Given(number) => {
            let index = number as usize;
            if index >= given.facts.len() {
                return Ok(Step::Clash);
            }
            try_given(given, &given.facts[index], reader, form, terms)
        }
        Entry::Rule(number) => match given.rules.rule(number) {
            Some(rule) => try_rule(given, rule, number, reader, form, terms),
            None => Ok(Step::Clash),
        },
    }
}
