//! Reading of plain bodies.

ghost use Rattle.std.specs.Prelude.{◌+◌, ◌<◌, ◌≤◌, ◌^◌, length, IfOk, IfErr};
ghost use Rattle.sx_term.specs.Term.{tree};
ghost use Rattle.sx_earley.specs.Completed.{IsSort};
ghost use Rattle.sx_notation.specs.ReadAmong.{IsReadAmong, IsRefusedAmong};
ghost use Rattle.sx_term.specs.Limits.{most_bytes, most_tokens};

use std::alloc::Global;
use sx_notation::{LineReader, NotationError};
use sx_outline::RuleLine;
use sx_term::{Sort, Term, Vars};

/// The plain body that the line states, of the sort: the term of its only reading, where the
/// variable with a number is the part whose name has this number. The line is refused, with its
/// number, where it has no tokens, where the stem of a metavariable is unknown or its name is that
/// of no part, and where its tokens have not one reading, in this order.
pub fn read_plain_body(
    alloc: Global,
    tables: &LineReader,
    sort: Sort,
    line: &RuleLine,
    parts: &Vars,
) -> Result<Term, NotationError>
    requires sort { IsSort tables.now.parts sort }
    requires short { length line.now.text ≤ most_bytes }
    requires room { length parts.now + most_tokens < 2 ^ 32 }
    ensures read { IfOk result (λ t. IsReadAmong tables.now.parts tables.now.stems sort
        line.now.text parts.now (tree t)) }
    ensures refused { IfErr result (IsRefusedAmong tables.now.parts tables.now.stems sort
        line.now.text parts.now line.now.number) }
{
    tables.read_among(alloc, sort, line.text.bytes(), line.number, parts)
}
