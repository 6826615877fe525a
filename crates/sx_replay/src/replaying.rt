//! Replaying a derivation from its list.

ghost use Rattle.std.specs.Prelude.{◌-◌, ◌^◌, ◌<◌, IfOk, length};
ghost use Rattle.sx_rules.specs.Deep.{AreShallow};
ghost use Rattle.sx_rules.specs.Derivations.{ShallowJudgements};
ghost use Rattle.sx_rules.specs.EntryView.{entries};
ghost use Rattle.sx_rules.specs.Views.{goal as goal_of, hypotheses};
ghost use Rattle.sx_arena.specs.Entered.{ArePairsShallow};
ghost use Rattle.sx_arena.specs.Views.{rules_of, set_modes};
ghost use Rattle.sx_replay.specs.Problem.{IsReplayProblem};
ghost use Rattle.sx_replay.specs.Replay.{IsReplayed};

use crate::follow::follow;
use crate::given::Given;
use crate::reader::Reader;
use crate::replay_error::ReplayError;
use std::alloc::Global;
use sx_arena::{Fact, Pair, enter_facts, enter_pairs, enter_places, export_all};
use sx_rules::{Entry, Goal, Hyps, RuleSet};
use sx_term::{NoMemory, Term};

/// The hypotheses and the goal's terms, by their numbers in a reader.
#[derive(Drop)]
pub struct Problem {
    pub reader: Reader,
    pub facts: Vec<Fact>,
    pub pairs: Vec<Pair>,
    pub terms: Vec<usize>,
}

/// The problem in a new reader.
fn enter_problem(
    alloc: Global,
    rules: &RuleSet,
    given: &Hyps,
    goal: &Goal,
) -> Result<Problem, NoMemory>
    requires holds { ShallowJudgements (hypotheses given.now).judgements }
    requires apart { ArePairsShallow (hypotheses given.now).pairs }
    requires goal { AreShallow (goal_of goal.now).terms }
    ensures { IfOk result (λ p. IsReplayProblem (set_modes rules.now) (rules_of rules.now)
        (hypotheses given.now) (goal_of goal.now).terms p) }
{
    let mut reader = Reader::new(alloc);
    let facts = match enter_facts(alloc, rules, &mut reader.arena, &given.holds) {
        Ok(facts) => facts,
        Err(e) => {
            drop(reader);
            return Err(e);
        }
    };
    let pairs = match enter_pairs(alloc, &mut reader.arena, &given.apart) {
        Ok(pairs) => pairs,
        Err(e) => {
            drop(facts);
            drop(reader);
            return Err(e);
        }
    };
    let terms = match enter_places(alloc, &mut reader.arena, &[], false, &goal.inputs) {
        Ok(terms) => terms,
        Err(e) => {
            drop(pairs);
            drop(facts);
            drop(reader);
            return Err(e);
        }
    };
    reader.base = reader.arena.len();
    Ok(Problem {
        reader,
        facts,
        pairs,
        terms,
    })
}

/// The outputs of the derivation of the goal from the hypotheses whose entries in preorder are the
/// list. The terms of the goal and of the hypotheses are at most 1,000 deep, and the list has fewer
/// than 2^32 entries.
///
/// Entries are numbered from 1, and the first at which something is wrong is answered:
/// - `WrongAt`: it fits no derivation that begins with the entries before it.
/// - `DeepList`: it stands at a goal deeper than 3,000.
/// - `TooDeep`, `TooBig`: with it a term is made that is deeper than 1,000, or that has more than
///   1,000,000 nodes.
/// - `LongList`: the entries before it are a whole derivation.
/// - `EndsEarly`: the list ends with goals left.
pub fn replay(
    alloc: Global,
    rules: &RuleSet,
    given: &Hyps,
    goal: &Goal,
    list: &[Entry],
) -> Result<Vec<Term>, ReplayError>
    requires short { length list.now < 2 ^ 32 }
    requires holds { ShallowJudgements (hypotheses given.now).judgements }
    requires apart { ArePairsShallow (hypotheses given.now).pairs }
    requires goal { AreShallow (goal_of goal.now).terms }
    ensures { IsReplayed (set_modes rules.now) (rules_of rules.now) (hypotheses given.now)
        (goal_of goal.now) (entries list.now) result }
{
    rules.facts();
    let problem = match enter_problem(alloc, rules, given, goal) {
        Ok(problem) => problem,
        Err(NoMemory::Memory) => return Err(ReplayError::Memory),
    };
    let Problem {
        reader,
        facts,
        pairs,
        terms,
    } = problem;
    let mut reader = reader;
    let known = Given {
        alloc,
        rules,
        facts: &facts,
        pairs: &pairs,
    };
    match follow(&known, &mut reader, goal.form, terms, list) {
        Ok(outputs) => {
            let exported = export_all(alloc, &reader.arena, &outputs);
            drop(outputs);
            drop(reader);
            drop(pairs);
            drop(facts);
            match exported {
                Ok(terms) => Ok(terms),
                Err(NoMemory::Memory) => Err(ReplayError::Memory),
            }
        }
        Err(error) => {
            drop(reader);
            drop(pairs);
            drop(facts);
            Err(error)
        }
    }
}
