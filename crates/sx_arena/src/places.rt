//! The places of a judgement: matching and making its inputs or its outputs, and the limits of
//! terms.

ghost use Rattle.std.specs.Prelude.{◌↔◌, ◌≤◌, ◌<◌, IsTrue, IfOk, OnOk, length, map};
ghost use Rattle.sx_term.specs.Term.{tree};
ghost use Rattle.sx_rules.specs.Instances.{instance};
ghost use Rattle.sx_arena.specs.Matching.{match_all, filled};
ghost use Rattle.sx_rules.specs.Deep.{AreShallow};
ghost use Rattle.sx_arena.specs.Limits.{limit_passed};
ghost use Rattle.sx_arena.specs.Arena.{trees, tree_at, IsArena, AreBelow};
ghost use Rattle.sx_arena.specs.Binds.{envs, env_at, IsBinds, BindsGrow, IsChainFit};
ghost use Rattle.sx_rules.specs.SubjectTerms.{output_mask};
ghost use Rattle.sx_arena.specs.Places.{
  selected,
  patterns_of,
  AreHeld,
  IsLimit,
  HasLabel,
  FirstLabelFits,
};

use crate::arena::Arena;
use crate::binds::Binds;
use crate::pattern::{fit, made};
use crate::shape::Shape;
use crate::side::Side;
use std::alloc::Global;
use sx_rules::{Place, is_output};
use sx_term::{MOST_DEPTH, MOST_SIZE, NoMemory, Term};

/// The limit that a term passes, with its depth or its size.
#[derive(Clone, Copy, PartialEq, Eq, Debug)]
pub enum Limit {
    TooDeep(u64),
    TooBig(u64),
}

/// Whether the term is a node with the label.
fn has_label(arena: &Arena, term: usize, label: u32) -> bool
    requires arena { IsArena arena.now }
    requires within { term < length (trees arena.now) }
    ensures { IsTrue result ↔ HasLabel label (tree_at (trees arena.now) term) }
{
    match &arena.cell(term).shape {
        Shape::Node {
            label: other,
            kids: _,
        } => label == *other,
        Shape::Lex { .. } => false,
        Shape::Var(_) => false,
    }
}

/// Whether the first pattern that is a node has the label of its term, or, where no pattern is one,
/// whether each has a term. Where not, the patterns match the terms under no bindings.
pub fn may_fit(arena: &Arena, side: &Side, terms: &[usize]) -> bool
    requires arena { IsArena arena.now }
    requires terms { AreBelow (length (trees arena.now)) terms.now }
    ensures { IsTrue result ↔ FirstLabelFits (patterns_of side.now)
        (map (tree_at (trees arena.now)) terms.now) }
{
    let Side {
        roles,
        outputs,
        places,
    } = *side;
    let mut taken = 0;
    for i in 0..places.len() {
        if is_output(roles, i) != outputs {
            continue;
        }
        if taken >= terms.len() {
            return false;
        }
        match &places[i] {
            Term::Node { label, kids: _ } => return has_label(arena, terms[taken], *label),
            Term::Lex { .. } => taken += 1,
            Term::Var(_) => taken += 1,
        }
    }
    true
}

/// The chain under which the instances of the side's terms are these terms, or None where there is
/// none.
pub fn fit_places(
    arena: &Arena,
    binds: &mut Binds,
    env: usize,
    side: &Side,
    terms: &[usize],
) -> Result<Option<usize>, NoMemory>
    requires shallow { AreShallow (map tree side.now.places.now) }
    requires arena { IsArena arena.now }
    requires binds { IsBinds (trees arena.now) binds.old }
    requires env { env ≤ length binds.old.cells.items }
    requires terms { AreBelow (length (trees arena.now)) terms.now }
    ensures grows { OnOk result (BindsGrow (trees arena.now) binds.old binds.new) }
    ensures fit { IfOk result (λ r. IsChainFit (trees arena.now) binds.new
        (match_all (patterns_of side.now) (map (tree_at (trees arena.now)) terms.now)
        (env_at (envs (trees arena.now) binds.old) env)) r) }
{
    let Side {
        roles,
        outputs,
        places,
    } = *side;
    let mut last = env;
    let mut taken = 0;
    for i in 0..places.len() {
        if is_output(roles, i) != outputs {
            continue;
        }
        if taken >= terms.len() {
            return Ok(None);
        }
        match fit(arena, binds, last, &places[i], terms[taken])? {
            Some(next) => last = next,
            None => return Ok(None),
        }
        taken += 1;
    }
    if taken < terms.len() {
        return Ok(None);
    }
    Ok(Some(last))
}

/// The instances of the side's terms under the chain.
pub fn make_places(
    alloc: Global,
    arena: &mut Arena,
    binds: &Binds,
    env: usize,
    side: &Side,
) -> Result<Vec<usize>, NoMemory>
    requires shallow { AreShallow (map tree side.now.places.now) }
    requires arena { IsArena arena.old }
    requires binds { IsBinds (trees arena.old) binds.now }
    requires env { env ≤ length binds.now.cells.items }
    ensures { IfOk result (λ r. AreHeld arena.old arena.new r.items
        (selected side.now.outputs (output_mask side.now.roles.now)
        (map (instance (filled (env_at (envs (trees arena.old) binds.now) env)))
        (map tree side.now.places.now)))) }
{
    let Side {
        roles,
        outputs,
        places,
    } = *side;
    let mut parts = Vec::new(alloc);
    for i in 0..places.len() {
        if is_output(roles, i) != outputs {
            continue;
        }
        parts.push(made(alloc, arena, binds, env, &places[i])?)?;
    }
    Ok(parts)
}

/// The first limit that the terms pass.
pub fn passed(arena: &Arena, terms: &[usize]) -> Option<Limit>
    requires arena { IsArena arena.now }
    requires terms { AreBelow (length (trees arena.now)) terms.now }
    ensures { IsLimit (limit_passed (map (tree_at (trees arena.now)) terms.now)) result }
{
    for term in terms {
        let cell = arena.cell(*term);
        if cell.depth > MOST_DEPTH as u64 {
            return Some(Limit::TooDeep(cell.depth));
        }
        if cell.size > MOST_SIZE {
            return Some(Limit::TooBig(cell.size));
        }
    }
    None
}
