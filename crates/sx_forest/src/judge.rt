//! The verdict on what is shown.

ghost use Rattle.std.specs.Prelude.{◌≤◌, ℕ, List};
ghost use Rattle.sx_grammar.specs.Grammar as plain;
ghost use Rattle.sx_grammar.specs.Reading.{ReadsWhole, reading_depth};
ghost use Rattle.sx_grammar.specs.Tally.{IsTally};
ghost use Rattle.sx_grammar.specs.ReadOne.{MoreHold};
ghost use Rattle.sx_earley.specs.Shown.{plain};
ghost use Rattle.sx_forest.specs.Tallies.{tally_of};
ghost use Rattle.sx_forest.specs.Rows.{AllSorted, IsWholeWays};
ghost use Rattle.sx_forest.specs.Verdict.{IsVerdict};
ghost use Rattle.sx_grammar.specs.ReadOne.{most_items};
ghost use Rattle.sx_term.specs.Limits.{most_tokens};

use crate::entries::Entries;
use crate::judged::Judged;
use crate::part_ways::part_ways;
use crate::row::last_row;
use crate::ways::Ways;
use std::alloc::Global;
use sx_grammar::Grammar;

/// The ways to read all tokens.
pub(crate) fn whole_ways(
    alloc: Global,
    grammar: &Grammar,
    start: u32,
    count: u32,
    table: &Entries,
) -> Ways
    requires short { count ≤ most_tokens }
    requires sorted { AllSorted table.now.lists.items }
    ensures { IsWholeWays (plain grammar.now) start count table.now.lists.items
        (tally_of result) }
{
    let row = last_row(alloc, count);
    part_ways(grammar, table.from(0), start, 0, &row)
}

/// How deep a reading may be.
const MOST_DEPTH: u64 = sx_term::MOST_DEPTH as u64;

/// What the ways to read all tokens come to.
pub(crate) fn judge(ways: Ways) -> Judged
    ensures { (g : plain.Grammar) (ts : List plain.Token) (start : ℕ) →
        (MoreHold g ts start most_items → ⊥) → IsTally (ReadsWhole g ts start) reading_depth
        (tally_of ways) → IsVerdict g ts start result }
{
    match ways {
        Ways::Nothing => Judged::Nothing,
        Ways::One(depth) => {
            if depth > MOST_DEPTH {
                Judged::TooDeep(depth)
            } else {
                Judged::One
            }
        }
        Ways::More(depth) => {
            if depth > MOST_DEPTH {
                Judged::TooDeep(depth)
            } else {
                Judged::More
            }
        }
    }
}
