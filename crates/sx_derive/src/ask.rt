//! The first answer of a premise's goal, and whether its outputs match.

ghost use Rattle.std.specs.Prelude.{◌^◌, ◌≤◌, ◌<◌, List, IfOk, length, map};
ghost use Rattle.sx_term.specs.Term.{tree};
ghost use Rattle.sx_rules.specs.Deep.{AreShallow};
ghost use Rattle.sx_rules.specs.Limits.{most_levels};
ghost use Rattle.sx_rules.specs.Rules.{Judgement as JudgementOf};
ghost use Rattle.sx_derive.specs.Asking.{IsAnswered};
ghost use Rattle.sx_arena.specs.Pairs.{ArePairs};
ghost use Rattle.sx_derive.specs.Givens.{IsStoreOf, GrowsIn, HasFacts, asked_by, FailsBy};
ghost use Rattle.sx_derive.specs.Quiet.{IsQuiet, first_given};
ghost use Rattle.sx_derive.specs.Store.{store_trees};
ghost use Rattle.sx_arena.specs.Views.{set_modes, judgement_of};

use crate::bounds::Bounds;
use crate::first::{First, first_noted};
use crate::given::Given;
use crate::made_places::made_inputs;
use crate::numbered_goal::NumberedGoal;
use crate::store::Store;
use sx_arena::{Side, copied, fit_places};
use sx_rules::Judgement;
use sx_term::NoMemory;

/// The goal has no answer, and the further notes are of it; or the outputs of its first answer are
/// not those of the premise; or they are, under a chain of bindings.
#[derive(Drop)]
pub enum Asked {
    Unanswered {
        terms: Vec<usize>,
        further: Vec<usize>,
    },
    Differs {
        terms: Vec<usize>,
        got: Vec<usize>,
    },
    Matched(usize),
}

/// What the goal of a premise has as its first answer.
pub(crate) fn ask(
    given: &Given,
    store: &mut Store,
    judgement: &Judgement,
    env: usize,
    bounds: Bounds,
) -> Result<Asked, NoMemory>
    requires few { length given.now.facts.now < 2 ^ 32 }
    requires facts { (js : List JudgementOf) × HasFacts given.now store.old js }
    requires store { IsStoreOf given.now store.old }
    requires pairs { ArePairs (length (store_trees store.old)) given.now.pairs.now }
    requires shallow { AreShallow (map tree judgement.now.places.items) }
    requires env { env ≤ length store.old.binds.cells.items }
    requires levels { bounds.levels < most_levels }
    requires quiet { (js : List JudgementOf) → HasFacts given.now store.old js →
        IsQuiet bounds.budget (asked_by given.now js store.old env bounds.levels judgement.now) }
    ensures grows { IfOk result (λ r. GrowsIn given.now store.old store.new) }
    ensures answered { IfOk result (λ r. (js : List JudgementOf) → HasFacts given.now store.old js →
        IsAnswered (set_modes given.now.rules.now) store.old store.new env
        (judgement_of judgement.now)
        (first_given (asked_by given.now js store.old env bounds.levels judgement.now))
        (FailsBy given.now js store.old env bounds.levels judgement.now) r) }
{
    let terms = made_inputs(given, store, judgement, env)?;
    let kept = copied(given.alloc, &terms)?;
    let goal = NumberedGoal {
        form: judgement.form,
        terms,
        levels: bounds.levels - 1,
    };
    let first = first_noted(given, store, goal, bounds.budget)?;
    match first {
        First::Nothing(further) => Ok(Asked::Unanswered {
            terms: kept,
            further,
        }),
        First::Answer(got) => {
            let side = Side::new(given.rules, judgement, true);
            let fit = fit_places(&store.arena, &mut store.binds, env, &side, &got)?;
            match fit {
                None => Ok(Asked::Differs { terms: kept, got }),
                Some(next) => {
                    drop(got);
                    drop(kept);
                    Ok(Asked::Matched(next))
                }
            }
        }
    }
}
