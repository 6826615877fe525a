//! Terms of an arena, and proofs of a store, as values of their own.

ghost use Rattle.std.specs.Prelude.{◌≡◌, ◌≤◌, ◌<◌, [], IfOk, OnOk, length, map};
ghost use Rattle.sx_term.specs.Term.{tree};
ghost use Rattle.sx_term.specs.Tree.{lexeme as leaf};
ghost use Rattle.sx_arena.specs.Matching.{filled};
ghost use Rattle.sx_arena.specs.Limits.{first_values};
ghost use Rattle.sx_arena.specs.Arena.{trees, tree_at, IsArena, AreBelow};
ghost use Rattle.sx_arena.specs.Binds.{envs, env_at, IsBinds};

use crate::arena::Arena;
use crate::binds::Binds;
use crate::shape::Shape;
use std::alloc::Global;
use sx_term::{LexKind, NoMemory, Term, Text, TextError};

/// The lexeme with this text.
fn lexeme(alloc: Global, kind: LexKind, text: &str) -> Result<Term, NoMemory>
    ensures { IfOk result (λ t. tree t ≡ leaf kind text.now) }
{
    match Text::make(alloc, text.as_bytes()) {
        Ok(text) => Ok(Term::Lex { kind, text }),
        Err(TextError::Memory) => Err(NoMemory::Memory),
        Err(TextError::NotUtf8(_)) => unreachable!(),
    }
}

/// The term with this number.
#[cycle(exporting)]
pub fn export(alloc: Global, arena: &Arena, index: usize) -> Result<Term, NoMemory>
    requires arena { IsArena arena.now }
    requires within { index < length (trees arena.now) }
    ensures { IfOk result (λ t. tree t ≡ tree_at (trees arena.now) index) }
{
    match &arena.cell(index).shape {
        Shape::Node { label, kids } => {
            let parts = export_all(alloc, arena, kids.as_slice())?;
            Ok(Term::Node {
                label: *label,
                kids: parts,
            })
        }
        Shape::Lex { kind, text } => lexeme(alloc, *kind, text.as_str()),
        Shape::Var(variable) => Ok(Term::Var(*variable)),
    }
}

/// Fills a list that has no terms with those that have these numbers.
#[cycle(exporting)]
#[inline(always)]
fn fill(
    alloc: Global,
    arena: &Arena,
    indices: &[usize],
    terms: &mut Vec<Term>,
) -> Result<(), NoMemory>
    requires arena { IsArena arena.now }
    requires within { AreBelow (length (trees arena.now)) indices.now }
    requires none { terms.old.items ≡ [] }
    ensures { OnOk result (map tree terms.new.items
        ≡ map (tree_at (trees arena.now)) indices.now) }
{
    for index in indices {
        terms.push(export(alloc, arena, *index)?)?;
    }
    Ok(())
}

/// The terms with these numbers.
#[cycle(exporting)]
pub fn export_all(alloc: Global, arena: &Arena, indices: &[usize]) -> Result<Vec<Term>, NoMemory>
    requires arena { IsArena arena.now }
    requires within { AreBelow (length (trees arena.now)) indices.now }
    ensures { IfOk result (λ r. map tree r.items ≡ map (tree_at (trees arena.now)) indices.now) }
{
    let mut terms = Vec::with_capacity(alloc, indices.len())?;
    match fill(alloc, arena, indices, &mut terms) {
        Ok(()) => Ok(terms),
        Err(e) => {
            drop(terms);
            Err(e)
        }
    }
}

/// The term that a chain of bindings gives a variable; what is not bound has the node 0 without
/// kids.
fn value(
    alloc: Global,
    arena: &Arena,
    binds: &Binds,
    env: usize,
    variable: usize,
) -> Result<Term, NoMemory>
    requires arena { IsArena arena.now }
    requires binds { IsBinds (trees arena.now) binds.now }
    requires env { env ≤ length binds.now.cells.items }
    ensures { IfOk result (λ t. tree t ≡ filled
        (env_at (envs (trees arena.now) binds.now) env) variable) }
{
    match binds.find(env, variable) {
        Some(index) => export(alloc, arena, index),
        None => Ok(Term::Node {
            label: 0,
            kids: Vec::new(alloc),
        }),
    }
}

/// The first terms of a chain of bindings.
pub fn export_binds(
    alloc: Global,
    arena: &Arena,
    binds: &Binds,
    env: usize,
    variables: usize,
) -> Result<Vec<Term>, NoMemory>
    requires arena { IsArena arena.now }
    requires binds { IsBinds (trees arena.now) binds.now }
    requires env { env ≤ length binds.now.cells.items }
    ensures { IfOk result (λ r. map tree r.items
        ≡ first_values variables (filled (env_at (envs (trees arena.now) binds.now) env))) }
{
    let mut terms = Vec::with_capacity(alloc, variables)?;
    for variable in 0..variables {
        terms.push(value(alloc, arena, binds, env, variable)?)?;
    }
    Ok(terms)
}
