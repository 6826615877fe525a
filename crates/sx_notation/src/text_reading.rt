//! Reading a line of text.

ghost use Rattle.std.specs.Prelude.{◌≡◌, ◌+◌, ◌<◌, ◌≤◌, ◌^◌, length, IfOk, IfErr, OnErr};
ghost use Rattle.sx_term.specs.Term.{tree};
ghost use Rattle.sx_earley.specs.Completed.{IsSort};
ghost use Rattle.sx_notation.specs.ReadText.{IsReadLine, IsTextRefused};
ghost use Rattle.sx_term.specs.Limits.{most_bytes, most_tokens};

use crate::line_reader::LineReader;
use crate::notation_error::NotationError;
use std::alloc::Global;
use sx_earley::Metas;
use sx_grammar::Grammar;
use sx_term::{Sort, Term, Vars};

/// The term of the line's only reading as the sort. Names of metavariables that `vars` lacks are
/// added in order of standing. The line is refused, with its number, where it has no tokens, where
/// the stem of a metavariable is unknown, and where its tokens have not one reading, in this order.
/// After each refusal, also where memory is lacking, `vars` is as before.
pub fn read_text(
    alloc: Global,
    grammar: &Grammar,
    sort: Sort,
    metas: &Metas,
    line: &[u8],
    number: u32,
    vars: &mut Vars,
) -> Result<Term, NotationError>
    requires sort { IsSort grammar.now.parts sort }
    requires short { length line.now ≤ most_bytes }
    requires room { length vars.now + most_tokens < 2 ^ 32 }
    ensures read { IfOk result
        (λ t. IsReadLine grammar.now.parts metas.now.stems.items sort line.now vars.old vars.new
        (tree t)) }
    ensures refused { IfErr result
        (IsTextRefused grammar.now.parts metas.now.stems.items sort line.now number) }
    ensures err { OnErr result (vars.new ≡ vars.old) }
    ensures grows { length vars.new ≤ length vars.old + most_tokens }
{
    let reader = LineReader::new(alloc, grammar, metas)?;
    reader.read_line(alloc, sort, line, number, vars)
}
