//! Steps of a search.

ghost use Rattle.std.specs.Prelude.{◌≤◌, IfOk, length, map};
ghost use Rattle.sx_term.specs.Term.{tree};
ghost use Rattle.sx_arena.specs.Matching.{filled};
ghost use Rattle.sx_rules.specs.Deep.{AreShallow};
ghost use Rattle.sx_arena.specs.Binds.{env_at};
ghost use Rattle.sx_derive.specs.Chains.{kids_at};
ghost use Rattle.sx_arena.specs.Views.{judgement_of, rule_of, rules_of, set_modes};
ghost use Rattle.sx_derive.specs.Givens.{IsStoreOf};
ghost use Rattle.sx_derive.specs.Store.{store_envs, store_kids};
ghost use Rattle.sx_derive.specs.Step.{IsConcluded, IsAsked, Awaits};

use crate::chains::{Head, Waiting, push_waiting};
use crate::given::Given;
use crate::made_places::{made_inputs, made_outputs};
use crate::store::Store;
use sx_arena::{Limit, passed};
use sx_rules::{Judgement, Rule};
use sx_term::NoMemory;

/// What comes of a candidate: nothing, a limit, an answer for the frames that wait, or a new goal
/// with its frames.
#[derive(Drop)]
pub enum Step {
    Nothing,
    Passed(Limit),
    DepthSpent,
    Done {
        head: Head,
        outputs: Vec<usize>,
    },
    Goes {
        form: u32,
        terms: Vec<usize>,
        levels: usize,
        frames: usize,
    },
}

/// The answer of a rule whose premises are done.
pub(crate) fn concluded(
    given: &Given,
    rule: &Rule,
    from: Waiting,
    store: &mut Store,
) -> Result<Step, NoMemory>
    requires shallow { AreShallow (map tree rule.now.conclusion.places.items) }
    requires store { IsStoreOf given.now store.old }
    requires env { from.env ≤ length store.old.binds.cells.items }
    requires kids { from.kids ≤ length store.old.kids.items }
    ensures { IfOk result
        (λ step. IsConcluded (set_modes given.now.rules.now)
        (rules_of given.now.rules.now) store.old
        store.new from.rule
        (rule_of rule.now) (filled (env_at (store_envs store.old) from.env))
        (kids_at (store_kids store.old) from.kids) step) }
{
    let outputs = made_outputs(given, store, &rule.conclusion, from.env)?;
    match passed(&store.arena, &outputs) {
        Some(limit) => Ok(Step::Passed(limit)),
        None => Ok(Step::Done {
            head: Head::By {
                number: from.rule,
                variables: rule.vars.len(),
                env: from.env,
                kids: from.kids,
            },
            outputs,
        }),
    }
}

/// The goal of a judgement premise, whose rule waits for it.
pub(crate) fn asked(
    given: &Given,
    judgement: &Judgement,
    store: &mut Store,
    waiting: Waiting,
) -> Result<Step, NoMemory>
    requires shallow { AreShallow (map tree judgement.now.places.items) }
    requires store { IsStoreOf given.now store.old }
    requires waits { Awaits (rules_of given.now.rules.now) (judgement_of judgement.now) waiting }
    requires env { waiting.env ≤ length store.old.binds.cells.items }
    requires kids { waiting.kids ≤ length store.old.kids.items }
    requires before { waiting.before ≤ length store.old.frames.items }
    requires until { store.old.until ≤ waiting.before }
    ensures { IfOk result
        (λ step. IsAsked (set_modes given.now.rules.now) (rules_of given.now.rules.now) store.old
        store.new
        (judgement_of judgement.now) waiting step) }
{
    let terms = made_inputs(given, store, judgement, waiting.env)?;
    match passed(&store.arena, &terms) {
        Some(limit) => Ok(Step::Passed(limit)),
        None => {
            if waiting.levels == 0 {
                return Ok(Step::DepthSpent);
            }
            let frames = push_waiting(&mut store.frames, waiting)?;
            Ok(Step::Goes {
                form: judgement.form,
                terms,
                levels: waiting.levels - 1,
                frames,
            })
        }
    }
}
