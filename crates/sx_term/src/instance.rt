//! Instances of terms.

ghost use Rattle.std.specs.Prelude.{◌≡◌, ◌+◌, ◌-◌, ◌^◌, ◌<◌, ◌≤◌, IfOk, min};
ghost use Rattle.sx_term.specs.Tree.{depth_of, size_of};
ghost use Rattle.sx_term.specs.Term.{tree};
ghost use Rattle.sx_term.specs.Bindings.{instance};
ghost use Rattle.sx_term.specs.Bound.{bindings};
ghost use Rattle.sx_term.specs.Subst.{IsInstanceWithin};
ghost use Rattle.sx_term.specs.Limits.{most_depth};

use crate::bindings::Bindings;
use crate::limits::{MOST_DEPTH, MOST_SIZE};
use crate::no_memory::NoMemory;
use crate::term::Term;
use crate::term_error::TermError;
use std::alloc::Global;

/// The instance: the term with each variable replaced by what it is bound to. A variable that is
/// not bound stays.
///
/// The instance is measured before it is made. It is refused as TooDeep where its depth is more
/// than 1,000, and else as TooBig where it has more than 1,000,000 nodes, lexemes and variables.
pub fn subst(alloc: Global, term: &Term, with: &Bindings) -> Result<Term, TermError>
    requires { depth_of (tree term.now) ≤ most_depth }
    ensures { IsInstanceWithin (instance (bindings with.now) (tree term.now)) result }
{
    let depth = instance_depth(term, with);
    if depth > MOST_DEPTH {
        return Err(TermError::TooDeep(depth));
    }
    let size = instance_size(term, with);
    if size > MOST_SIZE {
        return Err(TermError::TooBig(size));
    }
    Ok(made(alloc, term, with)?)
}

/// The depth of the instance, without making it.
fn instance_depth(term: &Term, with: &Bindings) -> u32
    requires { depth_of (tree term.now) ≤ most_depth }
    ensures value { result ≡ depth_of (instance (bindings with.now) (tree term.now)) }
    ensures small { result < depth_of (tree term.now) + most_depth }
{
    match term {
        Term::Node { label: _, kids } => {
            let mut most = 0;
            for kid in kids {
                most = most.max(instance_depth(kid, with));
            }
            most + 1
        }
        Term::Lex { kind: _, text: _ } => 1,
        Term::Var(variable) => match with.entry(*variable) {
            Some(binding) => binding.depth,
            None => 1,
        },
    }
}

/// The size of the instance, without making it.
fn instance_size(term: &Term, with: &Bindings) -> u64
    requires { depth_of (tree term.now) ≤ most_depth }
    ensures { result ≡ min (size_of (instance (bindings with.now) (tree term.now))) (2 ^ 64 - 1) }
{
    match term {
        Term::Node { label: _, kids } => {
            let mut total: u64 = 1;
            for kid in kids {
                total = total.saturating_add(instance_size(kid, with));
            }
            total
        }
        Term::Lex { kind: _, text: _ } => 1,
        Term::Var(variable) => match with.entry(*variable) {
            Some(binding) => binding.size,
            None => 1,
        },
    }
}

/// The instance.
fn made(alloc: Global, term: &Term, with: &Bindings) -> Result<Term, NoMemory>
    requires { depth_of (tree term.now) ≤ most_depth }
    ensures { IfOk result (λ t. tree t ≡ instance (bindings with.now) (tree term.now)) }
{
    match term {
        Term::Node { label, kids } => {
            let mut parts = Vec::with_capacity(alloc, kids.len())?;
            for kid in kids {
                parts.push(made(alloc, kid, with)?)?;
            }
            Ok(Term::Node {
                label: *label,
                kids: parts,
            })
        }
        Term::Lex { kind, text } => Ok(Term::Lex {
            kind: *kind,
            text: text.copy(alloc)?,
        }),
        Term::Var(variable) => match with.entry(*variable) {
            Some(binding) => binding.term.copy(alloc),
            None => Ok(Term::Var(*variable)),
        },
    }
}
