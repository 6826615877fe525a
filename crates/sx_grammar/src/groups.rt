//! Numbers of the sorts: sorts that lead to each other have one number, and each step to another
//! group rises. They spare searches and no more: that they never fall is checked where they are
//! used.

ghost use Rattle.std.specs.Prelude.{◌≡◌, length, slice_index_or};

use std::alloc::{AllocError, Global};

/// A sort on the way, the place of the step to look at, and the number that the sort was given as
/// it was met.
#[derive(Drop)]
struct Visit {
    sort: usize,
    place: usize,
    first: usize,
}

/// A walk along the steps in depth.
#[derive(Drop)]
struct Walk {
    /// 0 for a sort that is not met; then the least number known of a sort on the way to which it
    /// leads; in the end that of its group.
    numbers: Vec<usize>,
    /// The sorts that the walk has left, of groups that are not known.
    left: Vec<usize>,
    /// The sorts from the start to where the walk is.
    way: Vec<Visit>,
    /// The number of the next sort that is met.
    next: usize,
    /// The number of the next group, above those of the sorts on the way.
    group: usize,
}

/// The number of the sort.
pub(crate) fn number_of(numbers: &[usize], sort: usize) -> usize
    ensures { result ≡ slice_index_or numbers.now sort 0 }
{
    if sort < numbers.len() {
        numbers[sort]
    } else {
        0
    }
}

/// Gives the sort the number.
fn put_number(walk: &mut Walk, sort: usize, number: usize)
    ensures { length walk.new.left.items ≡ length walk.old.left.items }
{
    if sort < walk.numbers.len() {
        walk.numbers[sort] = number;
    }
}

/// Goes to a sort that is met for the first time.
fn meet(walk: &mut Walk, sort: usize) -> Result<(), AllocError> {
    let first = walk.next;
    put_number(walk, sort, first);
    walk.way.push(Visit {
        sort,
        place: 0,
        first,
    })?;
    walk.next = first.saturating_add(1);
    Ok(())
}

/// Makes a group of the sort and of the sorts left open that were met after it.
fn close(walk: &mut Walk, visit: &Visit) -> Result<(), AllocError> {
    let group = walk.group;
    put_number(walk, visit.sort, group);
    walk.group = group.saturating_sub(1);
    while let Some(last) = walk.left.pop() {
        if number_of(&walk.numbers, last) < visit.first {
            walk.left.push(last)?;
            return Ok(());
        }
        put_number(walk, last, group);
    }
    Ok(())
}

/// Leaves a sort from which all steps were looked at.
fn leave(walk: &mut Walk, visit: &Visit) -> Result<(), AllocError> {
    if number_of(&walk.numbers, visit.sort) == visit.first {
        return close(walk, visit);
    }
    walk.left.push(visit.sort)?;
    Ok(())
}

/// The sort to which the step at the place leads.
fn step_at(steps: &[Vec<usize>], sort: usize, place: usize) -> Option<usize> {
    steps.get(sort)?.get(place).copied()
}

/// Looks at the step to the sort: goes there where it is not met yet, else notes its number and
/// goes past the step.
fn look(walk: &mut Walk, visit: Visit, to: usize) -> Result<(), AllocError> {
    let number = number_of(&walk.numbers, to);
    if number == 0 {
        walk.way.push(visit)?;
        return meet(walk, to);
    }
    let Visit { sort, place, first } = visit;
    if number < number_of(&walk.numbers, sort) {
        put_number(walk, sort, number);
    }
    let place = place.saturating_add(1);
    walk.way.push(Visit { sort, place, first })?;
    Ok(())
}

/// Walks from the sort, for so many turns at most.
fn walk_from(
    walk: &mut Walk,
    steps: &[Vec<usize>],
    start: usize,
    turns: usize,
) -> Result<(), AllocError> {
    meet(walk, start)?;
    for _ in 0..turns {
        let Some(visit) = walk.way.pop() else {
            return Ok(());
        };
        match step_at(steps, visit.sort, visit.place) {
            Some(to) => look(walk, visit, to)?,
            None => leave(walk, &visit)?,
        }
    }
    Ok(())
}

/// As many turns as a walk can have: two for each step, one for each sort, and one to end.
fn most_turns(steps: &[Vec<usize>]) -> usize {
    let mut turns: usize = 1;
    for list in steps {
        turns = turns
            .saturating_add(list.len().saturating_mul(2))
            .saturating_add(1);
    }
    turns
}

/// The numbers of the sorts by their groups.
pub(crate) fn groups(alloc: Global, steps: &[Vec<usize>]) -> Result<Vec<usize>, AllocError> {
    let turns = most_turns(steps);
    let mut walk = Walk {
        numbers: Vec::from_elem(alloc, 0, steps.len())?,
        left: Vec::new(alloc),
        way: Vec::new(alloc),
        next: 1,
        group: usize::MAX,
    };
    for start in 0..steps.len() {
        if number_of(&walk.numbers, start) == 0 {
            walk_from(&mut walk, steps, start, turns)?;
        }
    }
    Ok(walk.numbers)
}
