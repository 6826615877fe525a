//! Terms that are kept where an arena is cut.

ghost use Rattle.std.specs.Prelude.{◌≡◌, ◌↔◌, true, IsTrue, IfOk, length, map};
ghost use Rattle.sx_rules.specs.Deep.{AreShallow};
ghost use Rattle.sx_arena.specs.Arena.{trees, tree_at, IsArena, AreBelow};
ghost use Rattle.sx_arena.specs.Keeping.{AreKeptIn};

use crate::arena::Arena;
use crate::input::enter_places;
use crate::output::export_all;
use crate::places::passed;
use std::alloc::Global;
use sx_term::NoMemory;

/// Whether all numbers are below the bound.
fn are_below(numbers: &[usize], bound: usize) -> bool
    ensures { IsTrue result ↔ AreBelow bound numbers.now }
{
    for number in numbers {
        if *number >= bound {
            return false;
        }
    }
    true
}

/// Whether the terms pass no limit, and have together no more than half as many nodes as there are
/// terms past the first so many: then they are made again in the time in which the others are
/// dropped.
fn is_worth(arena: &Arena, first: usize, numbers: &[usize]) -> bool
    requires arena { IsArena arena.now }
    requires numbers { AreBelow (length (trees arena.now)) numbers.now }
    ensures { result ≡ true → AreShallow (map (tree_at (trees arena.now)) numbers.now) }
{
    match passed(arena, numbers) {
        Some(_) => false,
        None => {
            let dropped = arena.len().saturating_sub(first) as u64;
            arena.extent_of(numbers).size <= dropped / 2
        }
    }
}

/// Drops the terms past the first so many but for those with these numbers, which may get others.
/// Where they are too large for that, all terms stay.
pub fn keep(
    alloc: Global,
    arena: &mut Arena,
    first: usize,
    numbers: Vec<usize>,
) -> Result<Vec<usize>, NoMemory>
    requires arena { IsArena arena.old }
    requires numbers { AreBelow (length (trees arena.old)) numbers.items }
    ensures { IfOk result (λ r. AreKeptIn first arena.old arena.new numbers.items r.items) }
{
    if are_below(&numbers, first) {
        arena.cut(first);
        return Ok(numbers);
    }
    if !is_worth(arena, first, &numbers) {
        return Ok(numbers);
    }
    let terms = export_all(alloc, arena, &numbers)?;
    arena.cut(first);
    enter_places(alloc, arena, &[], false, &terms)
}
