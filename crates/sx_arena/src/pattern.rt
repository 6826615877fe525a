//! Patterns: their instances, and matching.

ghost use Rattle.std.specs.Prelude.{◌≡◌, ◌≤◌, ◌<◌, IfOk, OnOk, length, map};
ghost use Rattle.sx_term.specs.Tree.{node, lexeme, hole, forest, depth_of, greatest_depth};
ghost use Rattle.sx_term.specs.Term.{tree};
ghost use Rattle.sx_rules.specs.Instances.{instance};
ghost use Rattle.sx_arena.specs.Matching.{match as matched, same, filled};
ghost use Rattle.sx_arena.specs.Arena.{trees, tree_at, IsArena, IsHeld};
ghost use Rattle.sx_arena.specs.Binds.{envs, env_at, IsBinds, BindsGrow, IsChainFit};
ghost use Rattle.sx_arena.specs.Places.{AreHeld};
ghost use Rattle.sx_term.specs.Limits.{most_depth};

use crate::arena::Arena;
use crate::binds::Binds;
use crate::shape::Shape;
use std::alloc::{AllocError, Global};
use sx_term::{LexKind, NoMemory, Term, Text};

/// The number of the term that the chain of bindings gives the variable; what is not bound has the
/// node 0 without kids.
#[inline(always)]
fn bound(
    alloc: Global,
    arena: &mut Arena,
    binds: &Binds,
    env: usize,
    variable: u32,
) -> Result<usize, AllocError>
    requires arena { IsArena arena.old }
    requires binds { IsBinds (trees arena.old) binds.now }
    requires env { env ≤ length binds.now.cells.items }
    ensures { IfOk result (λ i. IsHeld arena.old arena.new i
        (filled (env_at (envs (trees arena.old) binds.now) env) variable)) }
{
    match binds.find(env, variable as usize) {
        Some(term) => Ok(term),
        None => arena.node_of_list(0, Vec::new(alloc)),
    }
}

/// The number of the lexeme.
fn made_lexeme(
    alloc: Global,
    arena: &mut Arena,
    kind: LexKind,
    text: &Text,
) -> Result<usize, AllocError>
    requires arena { IsArena arena.old }
    ensures { IfOk result (λ i. IsHeld arena.old arena.new i (lexeme kind text.now)) }
{
    match arena.lexeme(alloc, kind, text) {
        Ok(index) => Ok(index),
        Err(_) => Err(AllocError),
    }
}

/// The numbers of the patterns' instances.
#[cycle(making)]
fn made_each(
    alloc: Global,
    arena: &mut Arena,
    binds: &Binds,
    env: usize,
    patterns: &[Term],
) -> Result<Vec<usize>, AllocError>
    requires depth { greatest_depth (forest (map tree patterns.now)) < most_depth }
    requires arena { IsArena arena.old }
    requires binds { IsBinds (trees arena.old) binds.now }
    requires env { env ≤ length binds.now.cells.items }
    ensures { IfOk result (λ r. AreHeld arena.old arena.new r.items
        (map (instance (filled (env_at (envs (trees arena.old) binds.now) env)))
        (map tree patterns.now))) }
{
    let mut parts = Vec::with_capacity(alloc, patterns.len())?;
    for pattern in patterns {
        parts.push(found_or_made(alloc, arena, binds, env, pattern)?)?;
    }
    Ok(parts)
}

/// The number of the node whose kids are the instances of three patterns or more, or of none. The
/// list of the kids is kept here, so that a call for one kid or two has no room for it.
#[cycle(making)]
#[inline(never)]
fn made_many(
    alloc: Global,
    arena: &mut Arena,
    binds: &Binds,
    env: usize,
    label: u32,
    kids: &[Term],
) -> Result<usize, AllocError>
    requires depth { greatest_depth (forest (map tree kids.now)) < most_depth }
    requires arena { IsArena arena.old }
    requires binds { IsBinds (trees arena.old) binds.now }
    requires env { env ≤ length binds.now.cells.items }
    ensures { IfOk result (λ i. IsHeld arena.old arena.new i
        (instance (filled (env_at (envs (trees arena.old) binds.now) env))
        (node label (forest (map tree kids.now))))) }
{
    let parts = made_each(alloc, arena, binds, env, kids)?;
    arena.node_of_list(label, parts)
}

/// The number of the node whose kids are the patterns' instances.
#[cycle(making)]
fn made_node(
    alloc: Global,
    arena: &mut Arena,
    binds: &Binds,
    env: usize,
    label: u32,
    kids: &[Term],
) -> Result<usize, AllocError>
    requires depth { greatest_depth (forest (map tree kids.now)) < most_depth }
    requires arena { IsArena arena.old }
    requires binds { IsBinds (trees arena.old) binds.now }
    requires env { env ≤ length binds.now.cells.items }
    ensures { IfOk result (λ i. IsHeld arena.old arena.new i
        (instance (filled (env_at (envs (trees arena.old) binds.now) env))
        (node label (forest (map tree kids.now))))) }
{
    match kids {
        [only] => {
            let part = found_or_made(alloc, arena, binds, env, only)?;
            arena.node_of_one(alloc, label, part)
        }
        [left, right] => {
            let first = found_or_made(alloc, arena, binds, env, left)?;
            let second = found_or_made(alloc, arena, binds, env, right)?;
            arena.node_of_two(alloc, label, first, second)
        }
        others => made_many(alloc, arena, binds, env, label, others),
    }
}

/// The number of the pattern's instance.
#[cycle(making)]
#[inline(always)]
fn found_or_made(
    alloc: Global,
    arena: &mut Arena,
    binds: &Binds,
    env: usize,
    pattern: &Term,
) -> Result<usize, AllocError>
    requires depth { depth_of (tree pattern.now) ≤ most_depth }
    requires arena { IsArena arena.old }
    requires binds { IsBinds (trees arena.old) binds.now }
    requires env { env ≤ length binds.now.cells.items }
    ensures { IfOk result (λ i. IsHeld arena.old arena.new i
        (instance (filled (env_at (envs (trees arena.old) binds.now) env)) (tree pattern.now))) }
{
    match pattern {
        Term::Node { label, kids } => made_node(alloc, arena, binds, env, *label, kids.as_slice()),
        Term::Lex { kind, text } => made_lexeme(alloc, arena, *kind, text),
        Term::Var(variable) => bound(alloc, arena, binds, env, *variable),
    }
}

/// The number of the pattern's instance.
#[inline(always)]
pub fn made(
    alloc: Global,
    arena: &mut Arena,
    binds: &Binds,
    env: usize,
    pattern: &Term,
) -> Result<usize, NoMemory>
    requires depth { depth_of (tree pattern.now) ≤ most_depth }
    requires arena { IsArena arena.old }
    requires binds { IsBinds (trees arena.old) binds.now }
    requires env { env ≤ length binds.now.cells.items }
    ensures { IfOk result (λ i. IsHeld arena.old arena.new i
        (instance (filled (env_at (envs (trees arena.old) binds.now) env)) (tree pattern.now))) }
{
    Ok(found_or_made(alloc, arena, binds, env, pattern)?)
}

/// Whether the term is the lexeme.
fn is_lexeme(arena: &Arena, term: usize, kind: LexKind, text: &Text) -> bool
    requires arena { IsArena arena.now }
    requires within { term < length (trees arena.now) }
    ensures { result ≡ same (lexeme kind text.now) (tree_at (trees arena.now) term) }
{
    match &arena.cell(term).shape {
        Shape::Lex {
            kind: other_kind,
            text: other_text,
        } => kind == *other_kind && text.as_str() == other_text.as_str(),
        _ => false,
    }
}

/// The chain under which the variable stands for the term, or None where there is none.
fn fit_variable(
    arena: &Arena,
    binds: &mut Binds,
    env: usize,
    variable: u32,
    term: usize,
) -> Result<Option<usize>, NoMemory>
    requires arena { IsArena arena.now }
    requires binds { IsBinds (trees arena.now) binds.old }
    requires env { env ≤ length binds.old.cells.items }
    requires within { term < length (trees arena.now) }
    ensures grows { OnOk result (BindsGrow (trees arena.now) binds.old binds.new) }
    ensures fit { IfOk result (λ r. IsChainFit (trees arena.now) binds.new
        (matched (hole variable) (tree_at (trees arena.now) term)
        (env_at (envs (trees arena.now) binds.old) env)) r) }
{
    match binds.find(env, variable as usize) {
        Some(bound) => {
            if bound == term {
                Ok(Some(env))
            } else {
                Ok(None)
            }
        }
        None => Ok(Some(binds.push(env, variable, term)?)),
    }
}

/// The chain under which the pattern's instance is the term, or None where there is none.
pub fn fit(
    arena: &Arena,
    binds: &mut Binds,
    env: usize,
    pattern: &Term,
    term: usize,
) -> Result<Option<usize>, NoMemory>
    requires depth { depth_of (tree pattern.now) ≤ most_depth }
    requires arena { IsArena arena.now }
    requires binds { IsBinds (trees arena.now) binds.old }
    requires env { env ≤ length binds.old.cells.items }
    requires within { term < length (trees arena.now) }
    ensures grows { OnOk result (BindsGrow (trees arena.now) binds.old binds.new) }
    ensures fit { IfOk result (λ r. IsChainFit (trees arena.now) binds.new
        (matched (tree pattern.now) (tree_at (trees arena.now) term)
        (env_at (envs (trees arena.now) binds.old) env)) r) }
{
    match pattern {
        Term::Node { label, kids } => match &arena.cell(term).shape {
            Shape::Node {
                label: other_label,
                kids: others,
            } => {
                if *label != *other_label {
                    return Ok(None);
                }
                if kids.len() != others.len() {
                    return Ok(None);
                }
                let mut last = env;
                for i in 0..kids.len() {
                    match fit(arena, binds, last, &kids[i], others[i])? {
                        Some(next) => last = next,
                        None => return Ok(None),
                    }
                }
                Ok(Some(last))
            }
            _ => Ok(None),
        },
        Term::Lex { kind, text } => {
            if is_lexeme(arena, term, *kind, text) {
                Ok(Some(env))
            } else {
                Ok(None)
            }
        }
        Term::Var(variable) => fit_variable(arena, binds, env, *variable, term),
    }
}
