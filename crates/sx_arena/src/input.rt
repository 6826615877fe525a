//! Terms, hypotheses and pairs are put into an arena.

ghost use Rattle.std.specs.Prelude.{◌≤◌, IfOk, map};
ghost use Rattle.sx_term.specs.Tree.{depth_of};
ghost use Rattle.sx_term.specs.Term.{tree};
ghost use Rattle.sx_rules.specs.Deep.{AreShallow};
ghost use Rattle.sx_rules.specs.Derivations.{ShallowJudgements};
ghost use Rattle.sx_rules.specs.Views.{pair};
ghost use Rattle.sx_arena.specs.Arena.{IsArena, IsHeld};
ghost use Rattle.sx_arena.specs.Entered.{IsFactIn, AreFactsIn, ArePairsShallow, IsPairIn};
ghost use Rattle.sx_arena.specs.Entered.{ArePairsIn};
ghost use Rattle.sx_arena.specs.Places.{selected, AreHeld};
ghost use Rattle.sx_rules.specs.SubjectTerms.{output_mask};
ghost use Rattle.sx_arena.specs.Views.{set_modes, judgement_of};
ghost use Rattle.sx_term.specs.Limits.{most_depth};

use crate::arena::Arena;
use crate::fact::Fact;
use crate::pairs::Pair;
use crate::set::roles;
use std::alloc::Global;
use sx_rules::{Judgement, Place, RuleSet, is_output};
use sx_term::{NoMemory, Term};

/// The number of the term.
pub fn enter(alloc: Global, arena: &mut Arena, term: &Term) -> Result<usize, NoMemory>
    requires depth { depth_of (tree term.now) ≤ most_depth }
    requires arena { IsArena arena.old }
    ensures { IfOk result (λ i. IsHeld arena.old arena.new i (tree term.now)) }
{
    match term {
        Term::Node { label, kids } => {
            let mut parts = Vec::with_capacity(alloc, kids.len())?;
            for kid in kids {
                parts.push(enter(alloc, arena, kid)?)?;
            }
            arena.node(*label, parts)
        }
        Term::Lex { kind, text } => arena.lexeme(alloc, *kind, text),
        Term::Var(variable) => arena.variable(*variable),
    }
}

/// The numbers of the terms at the outputs, or else at the inputs.
pub fn enter_places(
    alloc: Global,
    arena: &mut Arena,
    roles: &[Place],
    outputs: bool,
    places: &[Term],
) -> Result<Vec<usize>, NoMemory>
    requires shallow { AreShallow (map tree places.now) }
    requires arena { IsArena arena.old }
    ensures { IfOk result (λ r. AreHeld arena.old arena.new r.items
        (selected outputs (output_mask roles.now) (map tree places.now))) }
{
    let mut parts = Vec::new(alloc);
    for i in 0..places.len() {
        if is_output(roles, i) != outputs {
            continue;
        }
        parts.push(enter(alloc, arena, &places[i])?)?;
    }
    Ok(parts)
}

/// The judgement by its numbers.
fn enter_fact(
    alloc: Global,
    rules: &RuleSet,
    arena: &mut Arena,
    it: &Judgement,
) -> Result<Fact, NoMemory>
    requires shallow { AreShallow (map tree it.now.places.items) }
    requires arena { IsArena arena.old }
    ensures { IfOk result (λ f. IsFactIn (set_modes rules.now) arena.old arena.new
        (judgement_of it.now) f) }
{
    let inputs = enter_places(alloc, arena, roles(rules, it.form), false, &it.places)?;
    let outputs = enter_places(alloc, arena, roles(rules, it.form), true, &it.places)?;
    Ok(Fact {
        form: it.form,
        inputs,
        outputs,
    })
}

/// The judgements by their numbers.
pub fn enter_facts(
    alloc: Global,
    rules: &RuleSet,
    arena: &mut Arena,
    holds: &[Judgement],
) -> Result<Vec<Fact>, NoMemory>
    requires shallow { ShallowJudgements (map judgement_of holds.now) }
    requires arena { IsArena arena.old }
    ensures { IfOk result (λ r. AreFactsIn (set_modes rules.now) arena.old arena.new
        (map judgement_of holds.now) r.items) }
{
    let mut facts = Vec::with_capacity(alloc, holds.len())?;
    for i in 0..holds.len() {
        facts.push(enter_fact(alloc, rules, arena, &holds[i])?)?;
    }
    Ok(facts)
}

/// The two terms by their numbers.
fn enter_pair(alloc: Global, arena: &mut Arena, it: &(Term, Term)) -> Result<Pair, NoMemory>
    requires first { depth_of (tree it.now.0) ≤ most_depth }
    requires second { depth_of (tree it.now.1) ≤ most_depth }
    requires arena { IsArena arena.old }
    ensures { IfOk result (λ p. IsPairIn arena.old arena.new (pair it.now) p) }
{
    let first = enter(alloc, arena, &it.0)?;
    let second = enter(alloc, arena, &it.1)?;
    Ok(Pair { first, second })
}

/// The pairs by their numbers.
pub fn enter_pairs(
    alloc: Global,
    arena: &mut Arena,
    apart: &[(Term, Term)],
) -> Result<Vec<Pair>, NoMemory>
    requires shallow { ArePairsShallow (map pair apart.now) }
    requires arena { IsArena arena.old }
    ensures { IfOk result (λ r. ArePairsIn arena.old arena.new (map pair apart.now) r.items) }
{
    let mut pairs = Vec::with_capacity(alloc, apart.len())?;
    for i in 0..apart.len() {
        pairs.push(enter_pair(alloc, arena, &apart[i])?)?;
    }
    Ok(pairs)
}
