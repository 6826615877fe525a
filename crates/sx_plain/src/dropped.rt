//! The first part that a body does not use.

ghost use Rattle.std.specs.Prelude.{◌≡◌, ℕ, ◌<◌, ◌≤◌, IfOk, MatchOption, length, get_or, true};
ghost use Rattle.std.specs.Prelude.{false};
ghost use Rattle.sx_term.specs.Tree.{depth_of};
ghost use Rattle.sx_term.specs.Term.{tree};
ghost use Rattle.sx_plain.specs.Adds.{IsFirstDropped, UsesAll};
ghost use Rattle.sx_plain.specs.Marks as spec;
ghost use Rattle.sx_term.specs.Limits.{most_depth};

use std::alloc::Global;
use sx_term::{NoMemory, Term};

/// The first variable below the arity that the term has not, or None where it has each of them. A
/// term has no more variables than its size, so that no more than one mark beyond that is kept.
pub(crate) fn first_dropped(alloc: Global, term: &Term, arity: u32) -> Result<Option<u32>, NoMemory>
    requires { depth_of (tree term.now) ≤ most_depth }
    ensures { IfOk result (λ found. MatchOption found (UsesAll arity (tree term.now))
        (λ v. IsFirstDropped arity (tree term.now) v)) }
{
    let most = u64::from(arity).min(term.size().saturating_add(1)) as usize;
    let mut marks = unmarked(alloc, most)?;
    mark(term, &mut marks);
    Ok(first_unmarked(&marks))
}

/// So many marks, none of which is set.
fn unmarked(alloc: Global, count: usize) -> Result<Vec<bool>, NoMemory>
    ensures { IfOk result (λ marks. marks.items ≡ spec.no_marks count) }
{
    let mut marks = Vec::new(alloc);
    for _ in 0..count {
        marks.push(false)?;
    }
    Ok(marks)
}

/// Sets the mark of each variable of the term.
fn mark(term: &Term, marks: &mut Vec<bool>)
    requires { depth_of (tree term.now) ≤ most_depth }
    ensures { marks.new.items ≡ spec.marked (tree term.now) marks.old.items }
{
    match term {
        Term::Node { label: _, kids } => {
            for kid in kids {
                mark(kid, marks);
            }
        }
        Term::Lex { kind: _, text: _ } => {}
        Term::Var(variable) => {
            let i = *variable as usize;
            if i < marks.len() {
                marks[i] = true;
            }
        }
    }
}

/// The place of the first mark that is not set.
fn first_unmarked(marks: &[bool]) -> Option<u32>
    requires { length marks.now < 4294967296 }
    ensures { MatchOption result ((v : ℕ) → v < length marks.now → get_or marks.now v false ≡ true)
        (λ at. spec.IsFirstUnmarked marks.now at) }
{
    for i in 0..marks.len() {
        if !marks[i] {
            return Some(i as u32);
        }
    }
    None
}
