//! Reading texts without metavariables.

ghost use Rattle.std.specs.Prelude.{◌≡◌, ◌≤◌, ℕ, List, [], length, IfOk, IfErr};
ghost use Rattle.sx_term.specs.declared.sort.Sort.{Sort};
ghost use Rattle.sx_term.specs.Term.{tree};
ghost use Rattle.sx_grammar.specs.Parts.{numbered};
ghost use Rattle.sx_grammar.specs.ReadOne.{IsAnswer, only};
ghost use Rattle.sx_earley.specs.Tokens.{plain_tokens};
ghost use Rattle.sx_earley.specs.Completed.{IsSort, sort_number};
ghost use Rattle.sx_forest.specs.Readings.{plain_reading};
ghost use Rattle.sx_notation.specs.WhyUnread.{IsUnreadAs, IsReadError};
ghost use Rattle.sx_typing.specs.Body.{IsCut, ReadsAs};
ghost use Rattle.sx_typing.specs.Unread.{of_token_error, IsUnreadText};
ghost use Rattle.sx_term.specs.Limits.{most_bytes};

use crate::body::Body;
use crate::unread_text::UnreadText;
use std::alloc::Global;
use sx_earley::Metas;
use sx_forest::{ReadError, Reading, read_one, strip};
use sx_grammar::Grammar;
use sx_notation::{Unread, why_unread};
use sx_term::{NoMemory, Sort, Vars};
use sx_token::{Token, TokenError, tokens};

/// No metavariables have a sort.
fn no_metas(alloc: Global) -> Metas
    ensures { result.stems.items ≡ [] }
{
    Metas {
        stems: Vec::new(alloc),
    }
}

/// The refusal of a text that has this defect.
fn token_error(error: TokenError) -> UnreadText
    ensures { result ≡ of_token_error error }
{
    match error {
        TokenError::Memory => UnreadText::Memory,
        error => UnreadText::Token(error),
    }
}

/// The tokens of the text.
fn cut_text(alloc: Global, grammar: &Grammar, text: &[u8]) -> Result<Vec<Token>, UnreadText>
    requires { length text.now ≤ most_bytes }
    ensures cut { IfOk result (λ ts. IsCut grammar.now.parts text.now ts.items) }
    ensures refused { IfErr result (λ e. (sort : Sort) →
        IsUnreadText grammar.now.parts sort text.now e) }
{
    grammar.facts();
    match tokens(alloc, text, grammar.literals(), false) {
        Ok(tokens) => Ok(tokens),
        Err(error) => Err(token_error(error)),
    }
}

/// Why tokens of a text of so many bytes have not one reading.
fn read_error(
    alloc: Global,
    grammar: &Grammar,
    tokens: &[Token],
    size: usize,
    error: ReadError,
) -> Result<Unread, NoMemory>
    requires { (sort : Sort) × IsReadError grammar.now.parts [] sort tokens.now error }
    ensures { IfOk result (λ u. (sort : Sort) →
        IsReadError grammar.now.parts [] sort tokens.now error →
        IsUnreadAs grammar.now.parts [] sort tokens.now size u) }
{
    why_unread(alloc, grammar, tokens, size, error)
}

/// The only reading of the tokens of a text of so many bytes.
fn reading_of(
    alloc: Global,
    grammar: &Grammar,
    sort: Sort,
    tokens: &[Token],
    size: usize,
) -> Result<Reading, UnreadText>
    requires sort { IsSort grammar.now.parts sort }
    requires cut { (text : List ℕ) × IsCut grammar.now.parts text tokens.now }
    ensures only { IfOk result
        (λ r. IsAnswer (numbered grammar.now.parts) (plain_tokens [] tokens.now) (sort_number sort)
        (only (plain_reading r))) }
    ensures refused { IfErr result (λ e. (text : List ℕ) → IsCut grammar.now.parts text tokens.now →
        length text ≡ size → IsUnreadText grammar.now.parts sort text e) }
{
    let metas = no_metas(alloc);
    match read_one(alloc, grammar, sort, &metas, tokens) {
        Ok(reading) => Ok(reading),
        Err(error) => {
            let unread = read_error(alloc, grammar, tokens, size, error)?;
            Err(UnreadText::Read(unread))
        }
    }
}

/// Reads the text, of at most 262,144 bytes, as the sort, without metavariables. It is refused
/// where it has no tokens, and where these have not one reading.
pub fn read_body_text(
    alloc: Global,
    grammar: &Grammar,
    sort: Sort,
    text: &[u8],
) -> Result<Body, UnreadText>
    requires sort { IsSort grammar.now.parts sort }
    requires short { length text.now ≤ most_bytes }
    ensures read { IfOk result
        (λ b. ReadsAs grammar.now.parts sort text.now b.tokens.items (plain_reading b.reading)
        (tree b.term)) }
    ensures refused { IfErr result (IsUnreadText grammar.now.parts sort text.now) }
{
    let tokens = cut_text(alloc, grammar, text)?;
    let reading = match reading_of(alloc, grammar, sort, &tokens, text.len()) {
        Ok(reading) => reading,
        Err(error) => {
            drop(tokens);
            return Err(error);
        }
    };
    let mut names = Vars::new(alloc);
    match strip(alloc, &reading, &tokens, &mut names) {
        Ok(term) => {
            drop(names);
            Ok(Body {
                tokens,
                reading,
                term,
            })
        }
        Err(_) => {
            drop(names);
            drop(reading);
            drop(tokens);
            Err(UnreadText::Memory)
        }
    }
}
