//! Numbers that never fall along a step: a sort from which each step rises does not derive itself.

ghost use Rattle.std.specs.Prelude.{◌<◌, ◌↔◌, length, IsTrue, IfOk};
ghost use Rattle.sx_grammar.specs.Cycles.{AreFrom, AreAbove, NeverFalls, Rises};

use crate::cycle::list;
use crate::groups::{groups, number_of};
use std::alloc::{AllocError, Global};

/// Whether each of the sorts has this number or a greater one.
fn all_from(numbers: &[usize], least: usize, sorts: &[usize]) -> bool
    ensures { IsTrue result ↔ AreFrom numbers.now least sorts.now }
{
    for sort in sorts {
        if number_of(numbers, *sort) < least {
            return false;
        }
    }
    true
}

/// Whether each of the sorts has a greater number than this.
fn all_above(numbers: &[usize], bound: usize, sorts: &[usize]) -> bool
    ensures { IsTrue result ↔ AreAbove numbers.now bound sorts.now }
{
    for sort in sorts {
        if number_of(numbers, *sort) <= bound {
            return false;
        }
    }
    true
}

/// Whether no step falls.
fn never_falls(numbers: &[usize], steps: &[Vec<usize>]) -> bool
    ensures { IsTrue result ↔ NeverFalls numbers.now steps.now }
{
    for sort in 0..steps.len() {
        if !all_from(numbers, number_of(numbers, sort), list(steps, sort)) {
            return false;
        }
    }
    true
}

/// Whether each step from the sort rises.
pub(crate) fn rises(numbers: &[usize], steps: &[Vec<usize>], sort: usize) -> bool
    requires { sort < length steps.now }
    ensures { IsTrue result ↔ Rises numbers.now steps.now sort }
{
    all_above(numbers, number_of(numbers, sort), list(steps, sort))
}

/// Numbers that never fall: those of the groups, or none, so that no step rises, where they do not
/// prove to be so.
pub(crate) fn numbers(alloc: Global, steps: &[Vec<usize>]) -> Result<Vec<usize>, AllocError>
    ensures { IfOk result (λ v. NeverFalls v.items steps.now) }
{
    let found = groups(alloc, steps)?;
    if never_falls(&found, steps) {
        return Ok(found);
    }
    Ok(Vec::new(alloc))
}
