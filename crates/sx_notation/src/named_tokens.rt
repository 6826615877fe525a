//! Tokens whose metavariables are among some names.

ghost use Rattle.std.specs.Prelude.{◌≡◌, ◌+◌, ◌<◌, ◌^◌, true, false, length};
ghost use Rattle.std.specs.Prelude.{Contains, IfOk};
ghost use Rattle.std.specs.List.{AllByRecursion};
ghost use Rattle.sx_token.specs.declared.token.Token.{Token as TokenData};
ghost use Rattle.sx_notation.specs.ReadAmong.{IsNamed, IsUnnamed};

use std::alloc::Global;
use sx_term::{Mark, NoMemory, Text, Vars};
use sx_token::Token;

/// Whether the name is among the names, which `copy` has too. Where it is not, `copy` may get it.
fn is_among(names: &Vars, copy: &mut Vars, name: Text) -> Result<bool, NoMemory>
    requires same { copy.old ≡ names.now }
    requires room { length names.now + 1 < 2 ^ 32 }
    ensures among { IfOk result (λ b. b ≡ true →
        Contains names.now name × (copy.new ≡ names.now)) }
    ensures not { IfOk result (λ b. b ≡ false → ¬ (Contains names.now name)) }
{
    let number = copy.add(name)?;
    match names.name(number) {
        Some(_) => Ok(true),
        None => Ok(false),
    }
}

/// Whether the token's name is among the names, if it is a metavariable.
fn is_named(alloc: Global, names: &Vars, copy: &mut Vars, token: &Token) -> Result<bool, NoMemory>
    requires same { copy.old ≡ names.now }
    requires room { length names.now + 1 < 2 ^ 32 }
    ensures named { IfOk result (λ b. b ≡ true →
        IsNamed names.now token.now × (copy.new ≡ names.now)) }
    ensures not { IfOk result (λ b. b ≡ false → IsUnnamed names.now token.now) }
{
    match token.mark {
        Mark::Meta => {
            let name = token.name(alloc)?;
            is_among(names, copy, name)
        }
        _ => Ok(true),
    }
}

/// Whether the names of all metavariables among the tokens are among the names, of which `copy` is
/// a copy. It stays one where they are.
pub(crate) fn are_named(
    alloc: Global,
    names: &Vars,
    copy: &mut Vars,
    tokens: &[Token],
) -> Result<bool, NoMemory>
    requires same { copy.old ≡ names.now }
    requires room { length names.now + 1 < 2 ^ 32 }
    ensures named { IfOk result (λ b. b ≡ true →
        AllByRecursion (IsNamed names.now) tokens.now × (copy.new ≡ names.now)) }
    ensures not { IfOk result (λ b. b ≡ false →
        (t : TokenData) × Contains tokens.now t × IsUnnamed names.now t) }
{
    for i in 0..tokens.len() {
        let token = &tokens[i];
        if !is_named(alloc, names, copy, token)? {
            return Ok(false);
        }
    }
    Ok(true)
}
