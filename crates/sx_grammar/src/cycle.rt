//! The first sort that derives itself.

ghost use Rattle.std.specs.Prelude.{◌≡◌, ℕ, ◌+◌, ◌*◌, ◌<◌, ◌≤◌, ◌⊎◌, ◌↔◌, length, slice_index_or};
ghost use Rattle.std.specs.Prelude.{count_by, not, false, Contains, IsTrue, IfOk, OnOk};
ghost use Rattle.std.specs.Prelude.{MatchOption};
ghost use Rattle.sx_grammar.specs.Grammar.{Grammar};
ghost use Rattle.sx_grammar.specs.Cyclic.{IsCyclic, IsNotCyclic};
ghost use Rattle.sx_grammar.specs.Cycles.{list_at, AreStepsOf, AreStepsBelow, NeverFalls};

use crate::empty_sorts::{is_marked_sort, no_marks};
use crate::rising::{numbers, rises};
use std::alloc::{AllocError, Global};

/// Marks the sorts, and puts each that was not marked on the stack.
fn visit(sorts: &[usize], marks: &mut [bool], stack: &mut Vec<usize>) -> Result<(), AllocError>
    requires { (t : ℕ) → Contains sorts.now t → t < length marks.old }
    ensures same { length marks.new ≡ length marks.old }
    ensures kept { OnOk result ((t : ℕ) → IsTrue (slice_index_or marks.old t false) →
        IsTrue (slice_index_or marks.new t false)) }
    ensures only { OnOk result ((t : ℕ) → IsTrue (slice_index_or marks.new t false) →
        IsTrue (slice_index_or marks.old t false) ⊎ Contains sorts.now t) }
    ensures all { OnOk result ((t : ℕ) → Contains sorts.now t →
        IsTrue (slice_index_or marks.new t false)) }
    ensures waits { OnOk result ((t : ℕ) → IsTrue (slice_index_or marks.new t false) →
        IsTrue (slice_index_or marks.old t false) ⊎ Contains stack.new.items t) }
    ensures stack_kept { OnOk result ((t : ℕ) → Contains stack.old.items t →
        Contains stack.new.items t) }
    ensures stacked { OnOk result ((t : ℕ) → Contains stack.new.items t →
        Contains stack.old.items t ⊎ IsTrue (slice_index_or marks.new t false)) }
    ensures less { OnOk result (2 * count_by not marks.new + length stack.new.items
        ≤ 2 * count_by not marks.old + length stack.old.items) }
{
    for sort in sorts {
        if !marks[*sort] {
            marks[*sort] = true;
            stack.push(*sort)?;
        }
    }
    Ok(())
}

/// The list at the place.
pub(crate) fn list(lists: &[Vec<usize>], place: usize) -> &[usize]
    requires { place < length lists.now }
    ensures { result.now ≡ list_at lists.now place }
{
    &lists[place]
}

/// Whether steps lead from the sort to itself.
fn leads_back(alloc: Global, steps: &[Vec<usize>], sort: usize) -> Result<bool, AllocError>
    requires sort { sort < length steps.now }
    requires below { AreStepsBelow (length steps.now) steps.now }
    ensures { IfOk result (λ r. (g : Grammar) → AreStepsOf g steps.now →
        IsTrue r ↔ IsCyclic g sort) }
{
    let mut marks = no_marks(alloc, steps.len())?;
    let mut stack = Vec::new(alloc);
    visit(list(steps, sort), &mut marks, &mut stack)?;
    while let Some(next) = stack.pop() {
        visit(list(steps, next), &mut marks, &mut stack)?;
    }
    Ok(is_marked_sort(&marks, sort))
}

/// Whether the sort derives itself: it is searched only where a step from it does not rise.
fn is_cyclic(
    alloc: Global,
    steps: &[Vec<usize>],
    numbers: &[usize],
    sort: usize,
) -> Result<bool, AllocError>
    requires sort { sort < length steps.now }
    requires below { AreStepsBelow (length steps.now) steps.now }
    requires numbers { NeverFalls numbers.now steps.now }
    ensures { IfOk result (λ r. (g : Grammar) → AreStepsOf g steps.now →
        IsTrue r ↔ IsCyclic g sort) }
{
    if rises(numbers, steps, sort) {
        return Ok(false);
    }
    leads_back(alloc, steps, sort)
}

/// The first sort that derives itself.
pub(crate) fn first_cyclic(alloc: Global, steps: &[Vec<usize>]) -> Result<Option<usize>, AllocError>
    requires below { AreStepsBelow (length steps.now) steps.now }
    ensures { IfOk result (λ r. (g : Grammar) → AreStepsOf g steps.now →
        MatchOption r (IsNotCyclic g)
        (λ sort. (sort < length steps.now) × IsCyclic g sort ×
        ((other : ℕ) → other < sort → ¬ (IsCyclic g other)))) }
{
    let numbers = numbers(alloc, steps)?;
    for sort in 0..steps.len() {
        if is_cyclic(alloc, steps, &numbers, sort)? {
            return Ok(Some(sort));
        }
    }
    Ok(None)
}
