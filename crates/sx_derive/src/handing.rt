//! Answers, and the frames that wait for them.

ghost use Rattle.std.specs.Prelude.{◌≤◌, IfOk, length};
ghost use Rattle.sx_rules.specs.Deep.{RulesAreShallow};
ghost use Rattle.sx_arena.specs.Arena.{AreBelow};
ghost use Rattle.sx_derive.specs.Chains.{HeadFits};
ghost use Rattle.sx_derive.specs.Givens.{IsStoreOf};
ghost use Rattle.sx_derive.specs.Handing.{IsWaitingCell, IsResumed, IsHanded};
ghost use Rattle.sx_arena.specs.Pairs.{ArePairs};
ghost use Rattle.sx_derive.specs.Store.{store_trees, store_envs, store_kids};
ghost use Rattle.sx_arena.specs.Views.{rules_of, set_modes};

use crate::chains::{Head, Waiting, push_kid};
use crate::given::Given;
use crate::premise_loop::premises;
use crate::step::Step;
use crate::store::Store;
use sx_arena::{Side, fit_places, rule_at};
use sx_rules::Premise;
use sx_term::NoMemory;

/// What comes of an answer at the frame that waits for it.
fn resume(
    given: &Given,
    store: &mut Store,
    frame: Waiting,
    head: Head,
    outputs: &[usize],
) -> Result<Step, NoMemory>
    requires shallow { RulesAreShallow (rules_of given.now.rules.now) }
    requires store { IsStoreOf given.now store.old }
    requires pairs { ArePairs (length (store_trees store.old)) given.now.pairs.now }
    requires frame { IsWaitingCell (set_modes given.now.rules.now) (rules_of given.now.rules.now)
        store.old frame }
    requires head { HeadFits (length (store_envs store.old)) (length (store_kids store.old)) head }
    requires outputs { AreBelow (length (store_trees store.old)) outputs.now }
    ensures { IfOk result
        (λ step. IsResumed (set_modes given.now.rules.now) (rules_of given.now.rules.now)
        given.now.pairs.now store.old store.new
        frame head outputs.now step) }
{
    let rule = rule_at(given.rules, frame.rule);
    match &rule.premises[frame.premise] {
        Premise::Apart(_, _) => unreachable!(),
        Premise::Holds(judgement) => {
            let side = Side::new(given.rules, judgement, true);
            let fit = fit_places(&store.arena, &mut store.binds, frame.env, &side, outputs)?;
            match fit {
                None => Ok(Step::Nothing),
                Some(env) => {
                    let kids = push_kid(&mut store.kids, frame.kids, head)?;
                    let from = Waiting {
                        rule: frame.rule,
                        premise: frame.premise + 1,
                        env,
                        kids,
                        levels: frame.levels,
                        before: frame.before,
                    };
                    premises(given, rule, from, store)
                }
            }
        }
    }
}

/// What comes of an answer that is handed to the frames of a chain, up to that at which answers are
/// handed out.
pub(crate) fn hand_on(
    given: &Given,
    store: &mut Store,
    head: Head,
    outputs: Vec<usize>,
    frames: usize,
) -> Result<Step, NoMemory>
    requires shallow { RulesAreShallow (rules_of given.now.rules.now) }
    requires store { IsStoreOf given.now store.old }
    requires pairs { ArePairs (length (store_trees store.old)) given.now.pairs.now }
    requires frames { frames ≤ length store.old.frames.items }
    requires until { store.old.until ≤ frames }
    requires head { HeadFits (length (store_envs store.old)) (length (store_kids store.old)) head }
    requires outputs { AreBelow (length (store_trees store.old)) outputs.items }
    ensures { IfOk result
        (λ step. IsHanded (set_modes given.now.rules.now) (rules_of given.now.rules.now)
        given.now.pairs.now store.old store.new
        frames head outputs.items step) }
{
    let mut head = head;
    let mut outputs = outputs;
    let mut waiting = frames;
    while waiting > store.until {
        let frame = store.frames[waiting - 1];
        match resume(given, store, frame, head, &outputs)? {
            Step::Done {
                head: next,
                outputs: made,
            } => {
                head = next;
                outputs = made;
                waiting = frame.before;
            }
            other => return Ok(other),
        }
    }
    Ok(Step::Done { head, outputs })
}
