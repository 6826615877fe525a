//! The conditions of reading, looked at as the tests run.

ghost use Rattle.std.specs.Prelude.{IfSome, IsTrue};
ghost use Rattle.sx_earley.specs.Tokens.{Stems};
ghost use Rattle.sx_earley.specs.Unknown.{HasKnownStem, HaveStems};
ghost use Rattle.sx_earley.specs.Completed.{IsSort};

use sx_grammar::Grammar;
use sx_term::{Mark, Sort};
use sx_token::Token;

/// The first sort, if it is plain.
pub(crate) fn first_sort(grammar: &Grammar) -> Option<Sort>
    ensures { IfSome result (IsSort grammar.now.parts) }
{
    let line = grammar.parts().sorts.first()?;
    if line.typed {
        return None;
    }
    Some(Sort::Plain(0))
}

/// Whether the token is no metavariable.
fn has_stem(token: &Token) -> bool
    ensures { (stems : Stems) → IsTrue result → HasKnownStem stems token.now }
{
    match token.mark {
        Mark::Meta => false,
        _ => true,
    }
}

/// Whether none of the tokens is a metavariable.
pub(crate) fn have_stems(tokens: &[Token]) -> bool
    ensures { (stems : Stems) → IsTrue result → HaveStems stems tokens.now }
{
    for token in tokens {
        if !has_stem(token) {
            return false;
        }
    }
    true
}
