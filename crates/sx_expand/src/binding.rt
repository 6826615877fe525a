//! The bindings of a node in work.

ghost use Rattle.std.specs.Prelude.{◌≡◌, ℕ, ◌<◌, List, IfOk, OnOk, Some, length, map};
ghost use Rattle.sx_term.specs.Tree.{Tree};
ghost use Rattle.sx_rules.specs.Deep.{AreShallow};
ghost use Rattle.sx_rules.specs.Instances.{instance};
ghost use Rattle.sx_rules.specs.Modes.{inputs_of, outputs_of};
ghost use Rattle.sx_arena.specs.Arena.{trees, tree_at, IsArena, AreBelow};
ghost use Rattle.sx_arena.specs.Limits.{first_values};
ghost use Rattle.sx_arena.specs.Matching.{Assignment, nothing_bound, match_all, filled, IsBound};
ghost use Rattle.sx_arena.specs.Places.{selected, AreHeld};
ghost use Rattle.sx_arena.specs.Views.{judgement_of, set_modes};
ghost use Rattle.sx_expand.specs.Followed.{IsWork, bindings_of};

use crate::work::Work;
use std::alloc::Global;
use sx_arena::{Arena, Binds, Side, fit_places, make_places};
use sx_rules::{Judgement, Rule, RuleSet};
use sx_term::NoMemory;

/// The bindings under which the inputs of the rule's conclusion are the terms with these numbers.
pub(crate) fn input_work(
    alloc: Global,
    rules: &RuleSet,
    arena: &Arena,
    rule: &Rule,
    inputs: &[usize],
) -> Result<Work, NoMemory>
    requires arena { IsArena arena.now }
    requires shallow { AreShallow (judgement_of rule.now.conclusion).places }
    requires below { AreBelow (length (trees arena.now)) inputs.now }
    requires matches { (more : Assignment)
        × (match_all (inputs_of (set_modes rules.now) (judgement_of rule.now.conclusion))
        (map (tree_at (trees arena.now)) inputs.now) nothing_bound ≡ Some more) }
    ensures { IfOk result (λ w. IsWork (trees arena.now) w
        × (match_all (inputs_of (set_modes rules.now) (judgement_of rule.now.conclusion))
        (map (tree_at (trees arena.now)) inputs.now) nothing_bound
        ≡ Some (bindings_of (trees arena.now) w))) }
{
    let mut binds = Binds::new(alloc);
    let side = Side::new(rules, &rule.conclusion, false);
    let fit = fit_places(arena, &mut binds, 0, &side, inputs)?;
    match fit {
        Some(env) => Ok(Work { binds, env }),
        None => unreachable!(),
    }
}

/// Binds the variables of the premise's outputs, which are the terms with these numbers.
pub(crate) fn take_outputs(
    rules: &RuleSet,
    arena: &Arena,
    work: &mut Work,
    premise: &Judgement,
    outputs: &[usize],
) -> Result<(), NoMemory>
    requires arena { IsArena arena.now }
    requires work { IsWork (trees arena.now) work.old }
    requires shallow { AreShallow (judgement_of premise.now).places }
    requires below { AreBelow (length (trees arena.now)) outputs.now }
    requires matches { (more : Assignment)
        × (match_all (outputs_of (set_modes rules.now) (judgement_of premise.now))
        (map (tree_at (trees arena.now)) outputs.now)
        (bindings_of (trees arena.now) work.old) ≡ Some more) }
    ensures { OnOk result (IsWork (trees arena.now) work.new
        × (match_all (outputs_of (set_modes rules.now) (judgement_of premise.now))
        (map (tree_at (trees arena.now)) outputs.now)
        (bindings_of (trees arena.now) work.old)
        ≡ Some (bindings_of (trees arena.now) work.new))) }
{
    let side = Side::new(rules, premise, true);
    let fit = fit_places(arena, &mut work.binds, work.env, &side, outputs)?;
    match fit {
        Some(env) => {
            work.env = env;
            Ok(())
        }
        None => unreachable!(),
    }
}

/// The numbers of the outputs of the judgement, or else of its inputs, where its variables are
/// bound as at the node in work.
pub(crate) fn places_under(
    alloc: Global,
    rules: &RuleSet,
    arena: &mut Arena,
    work: &Work,
    it: &Judgement,
    outputs: bool,
) -> Result<Vec<usize>, NoMemory>
    requires arena { IsArena arena.old }
    requires work { IsWork (trees arena.old) work.now }
    requires shallow { AreShallow (judgement_of it.now).places }
    ensures { IfOk result (λ x. AreHeld arena.old arena.new x.items
        (selected outputs (set_modes rules.now it.now.form)
        (map (instance (filled (bindings_of (trees arena.old) work.now)))
        (judgement_of it.now).places))) }
{
    let side = Side::new(rules, it, outputs);
    make_places(alloc, arena, &work.binds, work.env, &side)
}

/// The numbers of the terms to which the first so many variables are bound.
pub(crate) fn bound_numbers(
    alloc: Global,
    work: &Work,
    count: usize,
) -> Result<Vec<usize>, NoMemory>
    requires { (terms : List Tree) × IsWork terms work.now
        × ((v : ℕ) → v < count → IsBound (bindings_of terms work.now) v) }
    ensures { IfOk result (λ x. (terms : List Tree) → IsWork terms work.now →
        ((v : ℕ) → v < count → IsBound (bindings_of terms work.now) v) →
        AreBelow (length terms) x.items × (map (tree_at terms) x.items
        ≡ first_values count (filled (bindings_of terms work.now)))) }
{
    let mut numbers = Vec::with_capacity(alloc, count)?;
    for v in 0..count {
        match work.binds.find(work.env, v) {
            Some(term) => numbers.push(term)?,
            None => unreachable!(),
        }
    }
    Ok(numbers)
}
