//! The parts of a problem, by their numbers in a store.

ghost use Rattle.std.specs.Prelude.{IfOk, MatchOption, map};
ghost use Rattle.std.specs.Option.{option_map};
ghost use Rattle.sx_term.specs.Term.{tree};
ghost use Rattle.sx_rules.specs.Deep.{AreShallow};
ghost use Rattle.sx_rules.specs.Derivations.{ShallowJudgements};
ghost use Rattle.sx_rules.specs.Views.{goal as goal_of, hypotheses};
ghost use Rattle.sx_arena.specs.Arena.{IsArena};
ghost use Rattle.sx_arena.specs.Entered.{ArePairsShallow};
ghost use Rattle.sx_arena.specs.Views.{rules_of, set_modes};
ghost use Rattle.sx_derive.specs.Problems.{IsWantedIn, IsProblem, problem_of};
ghost use Rattle.sx_derive.specs.Store.{IsStore};

use crate::store::Store;
use std::alloc::Global;
use sx_arena::{Arena, Fact, Pair, enter_facts, enter_pairs, enter_places};
use sx_rules::{Goal, Hyps, RuleSet};
use sx_term::{NoMemory, Term};

/// The hypotheses, the goal's terms and the wanted outputs, by their numbers.
#[derive(Drop)]
pub(crate) struct Entered {
    pub(crate) facts: Vec<Fact>,
    pub(crate) pairs: Vec<Pair>,
    pub(crate) terms: Vec<usize>,
    pub(crate) wanted: Option<Vec<usize>>,
}

/// What is wanted, by its numbers.
fn enter_wanted(
    alloc: Global,
    arena: &mut Arena,
    wanted: Option<&Vec<Term>>,
) -> Result<Option<Vec<usize>>, NoMemory>
    requires shallow { MatchOption wanted Unit (λ w. AreShallow (map tree w.now.items)) }
    requires arena { IsArena arena.old }
    ensures { IfOk result
        (λ r. IsWantedIn arena.old arena.new (option_map (λ w. map tree w.now.items) wanted.entry)
        r) }
{
    match wanted {
        None => Ok(None),
        Some(terms) => Ok(Some(enter_places(alloc, arena, &[], false, terms)?)),
    }
}

/// The parts of the problem are entered into a store.
pub(crate) fn enter_parts(
    alloc: Global,
    rules: &RuleSet,
    given: &Hyps,
    goal: &Goal,
    wanted: Option<&Vec<Term>>,
    store: &mut Store,
) -> Result<Entered, NoMemory>
    requires holds { ShallowJudgements (hypotheses given.now).judgements }
    requires apart { ArePairsShallow (hypotheses given.now).pairs }
    requires goal { AreShallow (goal_of goal.now).terms }
    requires wanted { MatchOption wanted Unit (λ w. AreShallow (map tree w.now.items)) }
    requires store { IsStore (set_modes rules.now) (rules_of rules.now) store.old }
    ensures { IfOk result
        (λ e. IsProblem (set_modes rules.now) (rules_of rules.now) (hypotheses given.now)
        (goal_of goal.now).terms (option_map (λ w. map tree w.now.items) wanted.entry)
        (problem_of store.new e)) }
{
    let facts = enter_facts(alloc, rules, &mut store.arena, &given.holds)?;
    let pairs = enter_pairs(alloc, &mut store.arena, &given.apart)?;
    let terms = enter_places(alloc, &mut store.arena, &[], false, &goal.inputs)?;
    let wanted = enter_wanted(alloc, &mut store.arena, wanted)?;
    Ok(Entered {
        facts,
        pairs,
        terms,
        wanted,
    })
}
