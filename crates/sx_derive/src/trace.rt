//! What a goal comes to along first candidates.

ghost use Rattle.std.specs.Prelude.{◌≡◌, ◌^◌, ◌<◌, ◌≤◌, IfOk, List, Some};
ghost use Rattle.std.specs.Prelude.{drop, length, map, reverse, slice_get};
ghost use Rattle.sx_term.specs.Term.{tree};
ghost use Rattle.sx_rules.specs.Deep.{AreShallow, PremiseIsShallow, RuleIsShallow};
ghost use Rattle.sx_rules.specs.Limits.{most_levels};
ghost use Rattle.sx_rules.specs.Rules.{Judgement as JudgementOf, holds};
ghost use Rattle.sx_arena.specs.Arena.{AreBelow};
ghost use Rattle.sx_arena.specs.Pairs.{ArePairs};
ghost use Rattle.sx_arena.specs.Views.{judgement_of, premise_of, rule_of, rules_of, set_modes};
ghost use Rattle.sx_derive.specs.Candidates.{goal_in};
ghost use Rattle.sx_derive.specs.Chains.{HeadFits};
ghost use Rattle.sx_derive.specs.Givens.{IsStoreOf, GrowsIn, HasFacts};
ghost use Rattle.sx_derive.specs.Handing.{IsWaitingCell, answer_in};
ghost use Rattle.sx_derive.specs.Runs.{StandFrom, StandsSomewhere, left_by};
ghost use Rattle.sx_derive.specs.Store.{store_trees, store_envs, store_kids};
ghost use Rattle.sx_derive.specs.Traced.{IsAnswerTaken, IsFirstCandidate};
ghost use Rattle.sx_derive.specs.Turns.{AreKeptBelow, PutsBehind};
ghost use Rattle.sx_derive.specs.Tracing.{
  ComesToBy,
  IsCandidateTracedBy,
  IsPremiseTracedBy,
  IsTracedBy,
  IsTracedUnderBy,
  WaitsAt,
};
ghost use Rattle.sx_derive.specs.declared.store.Store.{Store as StoreOf};

use crate::candidate::Candidate;
use crate::candidate_descent::{first_fact, first_rule};
use crate::chains::{Head, Waiting, push_kid, push_waiting};
use crate::given::Given;
use crate::made_places::{made_inputs, made_outputs};
use crate::numbered_goal::NumberedGoal;
use crate::passing::take_tries;
use crate::run::run;
use crate::store::Store;
use crate::tasks::{Ending, Task};
use crate::walk::goal_task;
use sx_arena::{Chain, Side, fit_places, instances_apart, passed, rule_at};
use sx_rules::{Judgement, Premise};
use sx_term::NoMemory;

/// The first answer of a goal; or that there is none, and the premises without an answer that first
/// candidates lead to, the innermost first; or what halts its walk before either.
#[derive(Drop)]
pub enum Traced {
    Answered { head: Head, outputs: Vec<usize> },
    Failed(Vec<usize>),
    Halted(Ending),
}

/// A premise holds by what is given first, with the chains of bindings and of proofs after it; or
/// nothing is given at it, and where its goal has no answer, the notes of its goal and its number;
/// or the walk halts at it.
#[derive(Drop)]
pub enum Premised {
    Holds { env: usize, kids: usize },
    Fails(Vec<usize>),
    Halts(Ending),
}

/// The first rule that fits and the chain that states the match, where no fact is the goal.
#[inline(never)]
fn first_candidate(
    given: &Given,
    store: &mut Store,
    form: u32,
    terms: &[usize],
) -> Result<Option<(u32, usize)>, NoMemory>
    requires store { IsStoreOf given.now store.old }
    requires terms { AreBelow (length (store_trees store.old)) terms.now }
    ensures grows { IfOk result (λ _. GrowsIn given.now store.old store.new) }
    ensures first { IfOk result (λ x. IsFirstCandidate (set_modes given.now.rules.now)
        (rules_of given.now.rules.now) given.now.facts.now store.new form terms.now
        (goal_in store.old form terms.now) x) }
{
    match first_fact(given.facts, form, terms) {
        Some(_) => Ok(None),
        None => first_rule(given.rules, store, form, terms),
    }
}

/// What the tasks above the base come to, where the first candidate comes to nothing.
#[inline(never)]
fn try_others(
    given: &Given,
    store: &mut Store,
    tasks: &mut Vec<Task>,
    base: usize,
    notes: Vec<usize>,
    tries: &mut u64,
) -> Result<Traced, NoMemory>
    requires few { length given.now.facts.now < 2 ^ 32 }
    requires base { base ≤ length tasks.old.items }
    requires stands { StandsSomewhere given.now (drop base tasks.old.items) store.old }
    ensures below { IfOk result (λ _. AreKeptBelow base tasks.old.items tasks.new.items) }
    ensures comes { IfOk result (λ t. (first : StoreOf) (js : List JudgementOf) →
        StandFrom given.now first js (drop base tasks.old.items) store.old →
        ComesToBy given.now js first store.new tries.old tries.new
        (left_by given.now js store.old (drop base tasks.old.items))
        (λ noted. noted ≡ reverse notes.items) (drop base tasks.new.items) t) }
{
    match run(given, store, tasks, base, tries)? {
        Ending::Found { head, outputs } => {
            drop(notes);
            Ok(Traced::Answered { head, outputs })
        }
        Ending::Exhausted => Ok(Traced::Failed(notes)),
        ending => {
            drop(notes);
            Ok(Traced::Halted(ending))
        }
    }
}

/// What an answer makes of a premise of a rule: its outputs are matched.
#[inline(never)]
fn take_answer(
    given: &Given,
    store: &mut Store,
    judgement: &Judgement,
    from: Waiting,
    head: Head,
    outputs: &[usize],
) -> Result<Premised, NoMemory>
    requires shallow { AreShallow (map tree judgement.now.places.items) }
    requires store { IsStoreOf given.now store.old }
    requires env { from.env ≤ length store.old.binds.cells.items }
    requires kids { from.kids ≤ length store.old.kids.items }
    requires head { HeadFits (length (store_envs store.old)) (length (store_kids store.old)) head }
    requires outputs { AreBelow (length (store_trees store.old)) outputs.now }
    ensures grows { IfOk result (λ _. GrowsIn given.now store.old store.new) }
    ensures taken { IfOk result (λ p. IsAnswerTaken (set_modes given.now.rules.now) store.old
        store.new from (judgement_of judgement.now) (answer_in store.old head outputs.now) p) }
{
    let side = Side::new(given.rules, judgement, true);
    let fit = fit_places(&store.arena, &mut store.binds, from.env, &side, outputs)?;
    match fit {
        None => Ok(Premised::Fails(Vec::new(given.alloc))),
        Some(env) => {
            let kids = push_kid(&mut store.kids, from.kids, head)?;
            Ok(Premised::Holds { env, kids })
        }
    }
}

/// What the goal of a premise comes to where its answers are handed out to the rule that waits.
#[cycle(trace)]
fn trace_under(
    given: &Given,
    store: &mut Store,
    from: Waiting,
    goal: NumberedGoal,
    tasks: &mut Vec<Task>,
    tries: &mut u64,
) -> Result<Traced, NoMemory>
    requires few { length given.now.facts.now < 2 ^ 32 }
    requires facts { (js : List JudgementOf) × HasFacts given.now store.old js }
    requires store { IsStoreOf given.now store.old }
    requires pairs { ArePairs (length (store_trees store.old)) given.now.pairs.now }
    requires waits { IsWaitingCell (set_modes given.now.rules.now) (rules_of given.now.rules.now)
        store.old from }
    requires before { from.before ≡ store.old.until }
    requires levels { goal.levels < most_levels }
    requires terms { AreBelow (length (store_trees store.old)) goal.terms.items }
    ensures { IfOk result (λ t. PutsBehind tasks.old.items tasks.new.items
        (IsTracedUnderBy given.now store.old store.new tries.old tries.new from goal t)) }
{
    let outer = store.until;
    store.until = push_waiting(&mut store.frames, from)?;
    let traced = trace(given, store, goal, tasks, tries);
    store.until = outer;
    traced
}

/// What a judgement premise of a rule comes to.
#[cycle(trace)]
fn trace_judgement(
    given: &Given,
    store: &mut Store,
    judgement: &Judgement,
    from: Waiting,
    tasks: &mut Vec<Task>,
    tries: &mut u64,
) -> Result<Premised, NoMemory>
    requires few { length given.now.facts.now < 2 ^ 32 }
    requires facts { (js : List JudgementOf) × HasFacts given.now store.old js }
    requires store { IsStoreOf given.now store.old }
    requires pairs { ArePairs (length (store_trees store.old)) given.now.pairs.now }
    requires shallow { AreShallow (map tree judgement.now.places.items) }
    requires before { from.before ≡ store.old.until }
    requires env { from.env ≤ length store.old.binds.cells.items }
    requires kids { from.kids ≤ length store.old.kids.items }
    requires levels { from.levels < most_levels }
    requires waits { WaitsAt given.now (holds (judgement_of judgement.now)) from }
    ensures { IfOk result (λ p. PutsBehind tasks.old.items tasks.new.items
        (IsPremiseTracedBy given.now store.old store.new tries.old tries.new from
        (holds (judgement_of judgement.now)) p)) }
{
    let terms = made_inputs(given, store, judgement, from.env)?;
    if let Some(limit) = passed(&store.arena, &terms) {
        return Ok(Premised::Halts(Ending::Passed(limit)));
    }
    if from.levels == 0 {
        return Ok(Premised::Halts(Ending::DepthSpent));
    }
    let goal = NumberedGoal {
        form: judgement.form,
        terms,
        levels: from.levels - 1,
    };
    match trace_under(given, store, from, goal, tasks, tries)? {
        Traced::Failed(noted) => {
            let mut notes = noted;
            notes.push(from.premise)?;
            Ok(Premised::Fails(notes))
        }
        Traced::Answered { head, outputs } => {
            take_answer(given, store, judgement, from, head, &outputs)
        }
        Traced::Halted(ending) => Ok(Premised::Halts(ending)),
    }
}

/// What a premise of a rule comes to.
#[cycle(trace)]
fn trace_premise(
    given: &Given,
    store: &mut Store,
    premise: &Premise,
    from: Waiting,
    tasks: &mut Vec<Task>,
    tries: &mut u64,
) -> Result<Premised, NoMemory>
    requires few { length given.now.facts.now < 2 ^ 32 }
    requires facts { (js : List JudgementOf) × HasFacts given.now store.old js }
    requires store { IsStoreOf given.now store.old }
    requires pairs { ArePairs (length (store_trees store.old)) given.now.pairs.now }
    requires shallow { PremiseIsShallow (premise_of premise.now) }
    requires before { from.before ≡ store.old.until }
    requires env { from.env ≤ length store.old.binds.cells.items }
    requires kids { from.kids ≤ length store.old.kids.items }
    requires levels { from.levels < most_levels }
    requires waits { WaitsAt given.now (premise_of premise.now) from }
    ensures { IfOk result (λ p. PutsBehind tasks.old.items tasks.new.items
        (IsPremiseTracedBy given.now store.old store.new tries.old tries.new from
        (premise_of premise.now) p)) }
{
    match premise {
        Premise::Holds(judgement) => trace_judgement(given, store, judgement, from, tasks, tries),
        Premise::Apart(one, other) => {
            let chain = Chain {
                binds: &store.binds,
                env: from.env,
            };
            let pairs = given.pairs;
            if !instances_apart(given.alloc, &mut store.arena, &chain, pairs, one, other)? {
                return Ok(Premised::Fails(Vec::new(given.alloc)));
            }
            Ok(Premised::Holds {
                env: from.env,
                kids: from.kids,
            })
        }
    }
}

/// What a goal's first candidate comes to. Where it gives nothing, what is left are the tasks.
#[cycle(trace)]
fn trace_rule(
    given: &Given,
    store: &mut Store,
    candidate: &Candidate,
    levels: usize,
    tasks: &mut Vec<Task>,
    tries: &mut u64,
) -> Result<Traced, NoMemory>
    requires few { length given.now.facts.now < 2 ^ 32 }
    requires facts { (js : List JudgementOf) × HasFacts given.now store.old js }
    requires store { IsStoreOf given.now store.old }
    requires pairs { ArePairs (length (store_trees store.old)) given.now.pairs.now }
    requires found { slice_get (rules_of given.now.rules.now) candidate.now.number
        ≡ Some (rule_of candidate.now.rule.now) }
    requires shallow { RuleIsShallow (rule_of candidate.now.rule.now) }
    requires env { candidate.now.env ≤ length store.old.binds.cells.items }
    requires levels { levels < most_levels }
    ensures { IfOk result (λ t. PutsBehind tasks.old.items tasks.new.items
        (IsCandidateTracedBy given.now store.old store.new tries.old tries.new candidate.now levels
        t)) }
{
    let rule = candidate.rule;
    let mut env = candidate.env;
    let mut kids = 0;
    let outer = store.until;
    for k in 0..rule.premises.len() {
        let from = Waiting {
            rule: candidate.number,
            premise: k,
            env,
            kids,
            levels,
            before: outer,
        };
        match trace_premise(given, store, &rule.premises[k], from, tasks, tries)? {
            Premised::Holds {
                env: next,
                kids: more,
            } => {
                env = next;
                kids = more;
            }
            Premised::Fails(notes) => return Ok(Traced::Failed(notes)),
            Premised::Halts(ending) => return Ok(Traced::Halted(ending)),
        }
    }
    let outputs = made_outputs(given, store, &rule.conclusion, env)?;
    if let Some(limit) = passed(&store.arena, &outputs) {
        return Ok(Traced::Halted(Ending::Passed(limit)));
    }
    Ok(Traced::Answered {
        head: Head::By {
            number: candidate.number,
            variables: rule.vars.len(),
            env,
            kids,
        },
        outputs,
    })
}

/// What the goal comes to, its first candidate and those of its premises before all others. The
/// tasks that are left of it come behind the others, whatever those are.
#[cycle(trace)]
pub(crate) fn trace(
    given: &Given,
    store: &mut Store,
    goal: NumberedGoal,
    tasks: &mut Vec<Task>,
    tries: &mut u64,
) -> Result<Traced, NoMemory>
    requires few { length given.now.facts.now < 2 ^ 32 }
    requires facts { (js : List JudgementOf) × HasFacts given.now store.old js }
    requires store { IsStoreOf given.now store.old }
    requires pairs { ArePairs (length (store_trees store.old)) given.now.pairs.now }
    requires levels { goal.levels < most_levels }
    requires terms { AreBelow (length (store_trees store.old)) goal.terms.items }
    ensures { IfOk result (λ t. PutsBehind tasks.old.items tasks.new.items
        (IsTracedBy given.now store.old store.new tries.old tries.new goal t)) }
{
    let mark = store.mark();
    let outer = store.until;
    let base = tasks.len();
    match first_candidate(given, store, goal.form, &goal.terms)? {
        None => {
            tasks.push(goal_task(goal, outer, mark))?;
            try_others(given, store, tasks, base, Vec::new(given.alloc), tries)
        }
        Some((number, env)) => {
            if !take_tries(given, number, tries) {
                return Ok(Traced::Halted(Ending::Spent));
            }
            given.rules.facts();
            let rule = rule_at(given.rules, number);
            let candidate = Candidate { rule, number, env };
            let NumberedGoal {
                form,
                terms,
                levels,
            } = goal;
            tasks.push(Task {
                next: given.facts.len() + number as usize + 1,
                form,
                terms,
                levels,
                frames: outer,
                mark,
            })?;
            match trace_rule(given, store, &candidate, levels, tasks, tries)? {
                Traced::Failed(notes) => try_others(given, store, tasks, base, notes, tries),
                other => Ok(other),
            }
        }
    }
}
