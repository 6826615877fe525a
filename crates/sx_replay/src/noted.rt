//! The first terms that pass a limit.

ghost use Rattle.std.specs.Prelude.{◌≡◌, map};
ghost use Rattle.sx_arena.specs.Arena.{trees, tree_at, IsArena, AreBelow};
ghost use Rattle.std.specs.Prelude.{length, nat_lt};
ghost use Rattle.sx_replay.specs.Limits.{earlier, some_when, note};

use sx_arena::Arena;
use sx_term::{MOST_DEPTH, MOST_SIZE};

/// The depth of the first term deeper than 1,000 and the size of the first with more than 1,000,000
/// nodes, each the greatest number where it is more.
#[derive(Clone, Copy)]
pub struct Noted {
    pub deep: Option<u64>,
    pub big: Option<u64>,
}

/// What was found before, or else the number where it is over the limit.
fn first_over(before: Option<u64>, number: u64, limit: u64) -> Option<u64>
    ensures { result ≡ earlier before (some_when (nat_lt limit number) number) }
{
    match before {
        Some(found) => Some(found),
        None => { if number > limit { Some(number) } else { None } }
    }
}

/// What is noted after these terms.
pub fn noted_after(arena: &Arena, terms: &[usize], noted: Noted) -> Noted
    requires arena { IsArena arena.now }
    requires terms { AreBelow (length (trees arena.now)) terms.now }
    ensures { result ≡ note noted (map (tree_at (trees arena.now)) terms.now) }
{
    let mut last = noted;
    for term in terms {
        let cell = arena.cell(*term);
        last = Noted {
            deep: first_over(last.deep, cell.depth, MOST_DEPTH as u64),
            big: first_over(last.big, cell.size, MOST_SIZE),
        };
    }
    last
}
