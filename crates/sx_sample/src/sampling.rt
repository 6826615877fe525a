//! The text of the sample module.

ghost use Rattle.std.specs.Prelude.{◌≡◌, ◌≤◌, ◌++◌, ◌∷◌, [], map, IfOk, OnOk};
ghost use Rattle.std.specs.List.{flat_map};
ghost use Rattle.sx_sample.specs.Samples.{numbered_name, bound_of, binding_of, sample_text};

use std::alloc::Global;
use sx_term::NoMemory;

/// The name with this number.
fn name(alloc: Global, number: u32) -> Result<Vec<u8>, NoMemory>
    ensures { IfOk result (λ v. v.items ≡ numbered_name number) }
{
    let digits = number.to_string(alloc)?;
    let mut name = Vec::from_slice(alloc, b"v")?;
    name.extend_from_slice(digits.as_bytes())?;
    Ok(name)
}

/// What the name with this number is bound to.
fn bound(alloc: Global, number: u32) -> Result<Vec<u8>, NoMemory>
    requires { 1 ≤ number }
    ensures { IfOk result (λ v. v.items ≡ bound_of number) }
{
    if number == 1 {
        return Ok(Vec::from_slice(alloc, b"1")?);
    }
    name(alloc, number - 1)
}

/// Appends the tokens, with one blank after each.
fn put_tokens(tokens: &[&[u8]], into: &mut Vec<u8>) -> Result<(), NoMemory>
    ensures { OnOk result (into.new.items ≡ into.old.items
        ++ flat_map (λ token. token ++ 32 ∷ []) (map (λ t. t.now) tokens.entry.now)) }
{
    for token in tokens {
        into.extend_from_slice(token)?;
        into.push(b' ')?;
    }
    Ok(())
}

/// Appends the tokens that bind the name with this number, with one blank after each.
fn put_binding(alloc: Global, number: u32, into: &mut Vec<u8>) -> Result<(), NoMemory>
    requires { 1 ≤ number }
    ensures { OnOk result (into.new.items ≡ into.old.items
        ++ flat_map (λ token. token ++ 32 ∷ []) (binding_of number)) }
{
    let name = name(alloc, number)?;
    let bound = bound(alloc, number)?;
    put_tokens(&[b"let", &name, b"=", &bound, b"in"], into)
}

/// The text of the sample module with so many names, from 1 to 300 of them.
pub fn sample(alloc: Global, number: u32) -> Result<Vec<u8>, NoMemory>
    requires some { 1 ≤ number }
    requires most { number ≤ 300 }
    ensures { IfOk result (λ v. v.items ≡ sample_text number) }
{
    let mut text = Vec::from_slice(alloc, b"module Sample\nlanguage Lam\nuse Let\n---\n")?;
    for bound in 0..number {
        put_binding(alloc, bound + 1, &mut text)?;
    }
    let last = name(alloc, number)?;
    text.extend_from_slice(&last)?;
    text.push(b'\n')?;
    Ok(text)
}
