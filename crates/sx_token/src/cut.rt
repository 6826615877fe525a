//! The cutting of a text.

ghost use Rattle.std.specs.Prelude.{◌≡◌, ◌≤◌, ◌++◌, [], ◌∷◌, length, IfSome, IfErr, OnOk};
ghost use Rattle.sx_term.specs.Cutting.{IsOutcome};
ghost use Rattle.sx_token.specs.Table.{IsLiteralTable};
ghost use Rattle.sx_token.specs.Tokens.{pieces, outcome_of};
ghost use Rattle.sx_term.specs.Limits.{most_bytes};

use crate::front::{Front, front_of};
use crate::table::Table;
use crate::token::Token;
use crate::token_error::TokenError;
use std::alloc::Global;
use sx_term::{MOST_TOKENS, Mark, Text};

/// Adds the token with this text.
fn push_token(
    alloc: Global,
    out: &mut Vec<Token>,
    mark: Mark,
    text: &str,
    from: u32,
    to: u32,
) -> Result<(), TokenError>
    ensures ok { OnOk result (pieces out.new.items ≡ pieces out.old.items
        ++ record { mark = mark; text = text.now; from = from; to = to } ∷ []) }
    ensures memory { IfErr result (λ e. e ≡ TokenError.Memory) }
{
    let text = Text::of_str(alloc, text)?;
    out.push(Token {
        mark,
        text,
        from,
        to,
    })?;
    Ok(())
}

/// The tokens of the text, or its first defect.
pub(crate) fn cut(
    alloc: Global,
    table: &Table,
    text: &str,
    metas: bool,
) -> Result<Vec<Token>, TokenError>
    requires table { IsLiteralTable table.now.literals.now table.now }
    requires short { length text.now ≤ most_bytes }
    ensures { IfSome (outcome_of result) (IsOutcome table.now.literals.now metas text.now) }
{
    let mut out = Vec::new(alloc);
    let mut rest = text;
    while !rest.is_empty() {
        let from = (text.len() - rest.len()) as u32;
        match front_of(table, rest, metas) {
            Front::Skip(len) => {
                let (_, after) = rest.split_at(len);
                rest = after;
            }
            Front::Token(mark, len) => {
                if out.len() == MOST_TOKENS {
                    drop(out);
                    return Err(TokenError::TooManyTokens);
                }
                let (token, after) = rest.split_at(len);
                let to = (text.len() - after.len()) as u32;
                match push_token(alloc, &mut out, mark, token, from, to) {
                    Ok(()) => {}
                    Err(e) => {
                        drop(out);
                        return Err(e);
                    }
                }
                rest = after;
            }
            Front::Open => {
                drop(out);
                return Err(TokenError::OpenString(from));
            }
            Front::Bad => {
                drop(out);
                return Err(TokenError::BadToken(from));
            }
        }
    }
    Ok(out)
}
