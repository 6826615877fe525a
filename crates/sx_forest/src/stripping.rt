//! The term of a reading.

ghost use Rattle.std.specs.Prelude.{◌≡◌, ℕ, ◌+◌, ◌^◌, ◌<◌, ◌≤◌, ◌++◌, List, length};
ghost use Rattle.std.specs.Prelude.{IfOk, OnOk, OnErr};
ghost use Rattle.sx_term.specs.declared.lex_kind.LexKind.{LexKind};
ghost use Rattle.sx_term.specs.Cutting.{AreDistinct};
ghost use Rattle.sx_term.specs.Term.{tree};
ghost use Rattle.sx_term.specs.Tree.{lexeme, hole};
ghost use Rattle.sx_term.specs.Vars.{IsAdded, without_tilde};
ghost use Rattle.sx_grammar.specs.Print.{term_of};
ghost use Rattle.sx_grammar.specs.Reading.{reading_depth};
ghost use Rattle.sx_earley.specs.Tokens.{Stems, plain_tokens};
ghost use Rattle.sx_forest.specs.Readings.{plain_reading};
ghost use Rattle.sx_forest.specs.Names.{IsMarked, reading_names, AddsEach, AddsFront};
ghost use Rattle.sx_term.specs.Limits.{most_depth};

use crate::reading::Reading;
use std::alloc::Global;
use sx_term::{Mark, NoMemory, Term, Vars};
use sx_token::Token;

/// The term of the reading, without brackets. Names of metavariables that `vars` lacks are added in
/// order of standing; names that are added later do not change the term. Where memory is lacking,
/// `vars` is as before.
pub fn strip(
    alloc: Global,
    reading: &Reading,
    tokens: &[Token],
    vars: &mut Vars,
) -> Result<Term, NoMemory>
    requires depth { reading_depth (plain_reading reading.now) ≤ most_depth }
    requires marked { IsMarked tokens.now (plain_reading reading.now) }
    requires room { length vars.now + length
        (reading_names tokens.now (plain_reading reading.now)) < 2 ^ 32 }
    ensures term { IfOk result (λ t. (stems : Stems) (later : List (List ℕ)) →
        tree t ≡ term_of (plain_tokens stems tokens.now) (vars.new ++ later)
        (plain_reading reading.now)) }
    ensures names { OnOk result (AddsEach vars.old
        (reading_names tokens.now (plain_reading reading.now)) vars.new) }
    ensures err { OnErr result (vars.new ≡ vars.old) }
{
    let count = vars.count();
    match strip_into(alloc, reading, tokens, vars) {
        Ok(term) => Ok(term),
        Err(error) => {
            vars.cut(count);
            Err(error)
        }
    }
}

/// The same, but where memory is lacking some of the names may have been added, the first ones.
fn strip_into(
    alloc: Global,
    reading: &Reading,
    tokens: &[Token],
    vars: &mut Vars,
) -> Result<Term, NoMemory>
    requires depth { reading_depth (plain_reading reading.now) ≤ most_depth }
    requires marked { IsMarked tokens.now (plain_reading reading.now) }
    requires room { length vars.now + length
        (reading_names tokens.now (plain_reading reading.now)) < 2 ^ 32 }
    ensures term { IfOk result (λ t. (stems : Stems) (later : List (List ℕ)) →
        tree t ≡ term_of (plain_tokens stems tokens.now) (vars.new ++ later)
        (plain_reading reading.now)) }
    ensures names { OnOk result (AddsEach vars.old
        (reading_names tokens.now (plain_reading reading.now)) vars.new) }
    ensures err { OnErr result (AddsFront vars.old
        (reading_names tokens.now (plain_reading reading.now)) vars.new) }
{
    match reading {
        Reading::Node {
            label,
            kids,
            from: _,
            to: _,
        } => {
            let mut terms = Vec::with_capacity(alloc, kids.len())?;
            for kid in kids {
                terms.push(strip_into(alloc, kid, tokens, vars)?)?;
            }
            Ok(Term::Node {
                label: *label,
                kids: terms,
            })
        }
        Reading::Bracket {
            inner,
            from: _,
            to: _,
        } => strip_into(alloc, inner, tokens, vars),
        Reading::Lex { token } => lexeme(alloc, &tokens[*token as usize]),
        Reading::Var { token } => variable(alloc, &tokens[*token as usize], vars),
    }
}

/// The lexeme that the token is.
fn lexeme(alloc: Global, token: &Token) -> Result<Term, NoMemory>
    requires { (kind : LexKind) × (token.now.mark ≡ Mark.Lex kind) }
    ensures { IfOk result (λ t. (kind : LexKind) → token.now.mark ≡ Mark.Lex kind →
        tree t ≡ lexeme kind token.now.text) }
{
    match token.mark {
        Mark::Lex(kind) => Ok(Term::Lex {
            kind,
            text: token.text.copy(alloc)?,
        }),
        _ => unreachable!(),
    }
}

/// The variable with the name of the token, which is added where it is not there. Where memory is
/// lacking, the names are as before.
fn variable(alloc: Global, token: &Token, vars: &mut Vars) -> Result<Term, NoMemory>
    requires { length vars.now + 1 < 2 ^ 32 }
    ensures ok { IfOk result (λ t. (number : ℕ) × (tree t ≡ hole number) ×
        IsAdded vars.old vars.new (without_tilde token.now.text) number × AreDistinct vars.new) }
    ensures err { OnErr result (vars.new ≡ vars.old) }
{
    let name = token.name(alloc)?;
    let number = vars.add(name)?;
    Ok(Term::Var(number))
}
