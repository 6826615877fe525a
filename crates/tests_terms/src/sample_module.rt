//! The sample module: its text, its tokens, the files that it needs, and its summary.

ghost use Rattle.std.specs.Prelude.{◌≡◌, ◌≤◌, [], ◌∷◌, IfOk};

use crate::asserts::assert_same;
use crate::samples::text;
use std::alloc::Global;
use sx_sample::{LAM_LANG, LET_EXT, Summary, sample, sample_shelf, summary_line};
use sx_term::{NoMemory, Text};
use sx_token::tokens;

/// The lines before the body.
const HEAD: &[u8] = b"module Sample
language Lam
use Let
---
";

/// The module with one name.
const ONE: &[u8] = b"module Sample
language Lam
use Let
---
let v1 = 1 in v1
";

/// The module with three names.
const THREE: &[u8] = b"module Sample
language Lam
use Let
---
let v1 = 1 in let v2 = v1 in let v3 = v2 in v3
";

/// Whether this is the text with so many names.
fn is_text(alloc: Global, number: u32, wanted: &[u8]) -> bool
    requires some { 1 ≤ number }
    requires most { number ≤ 300 }
{
    match sample(alloc, number) {
        Ok(text) => {
            let is = text.as_slice() == wanted;
            drop(text);
            is
        }
        Err(_) => false,
    }
}

/// The literal `=`.
fn equals_sign(alloc: Global) -> Result<Vec<Text>, NoMemory>
    ensures { IfOk result (λ v. v.items ≡ (61 ∷ []) ∷ []) }
{
    let mut literals = Vec::new(alloc);
    literals.push(text(alloc, "=")?)?;
    Ok(literals)
}

/// How many tokens the bytes have; 0 where they are too many or have none.
fn many_tokens(alloc: Global, bytes: &[u8]) -> usize {
    if bytes.len() > 262144 {
        return 0;
    }
    match equals_sign(alloc) {
        Ok(literals) => {
            let read = tokens(alloc, bytes, &literals, false);
            let many = match &read {
                Ok(found) => found.len(),
                Err(_) => 0,
            };
            drop(read);
            drop(literals);
            many
        }
        Err(_) => 0,
    }
}

/// How many tokens the body with so many names has.
fn body_tokens(alloc: Global, number: u32) -> usize
    requires some { 1 ≤ number }
    requires most { number ≤ 300 }
{
    match sample(alloc, number) {
        Ok(text) => {
            let many = match text.as_slice().strip_prefix(HEAD) {
                Some(body) => many_tokens(alloc, body),
                None => 0,
            };
            drop(text);
            many
        }
        Err(_) => 0,
    }
}

#[test]
fn texts(rt: HostRuntime) {
    let alloc = rt.alloc();
    assert_same(
        &rt,
        &[is_text(alloc, 1, ONE), is_text(alloc, 3, THREE)],
        &[true; 2],
    );
    assert_same(
        &rt,
        &[body_tokens(alloc, 1), body_tokens(alloc, 300)],
        &[6, 1501],
    );
}

/// Whether the shelf with three names has these bytes under the name.
fn is_held_as(alloc: Global, name: &Text, wanted: Option<&[u8]>) -> bool {
    match sample_shelf(alloc, 3) {
        Ok(shelf) => {
            let is = shelf.get(name) == wanted;
            drop(shelf);
            is
        }
        Err(_) => false,
    }
}

/// The same of a name that is not yet a text.
fn is_held(alloc: Global, name: &str, wanted: Option<&[u8]>) -> bool {
    match Text::of_str(alloc, name) {
        Ok(name) => {
            let is = is_held_as(alloc, &name, wanted);
            drop(name);
            is
        }
        Err(_) => false,
    }
}

#[test]
fn files(rt: HostRuntime) {
    let alloc = rt.alloc();
    let hold = [
        is_held(alloc, "Lam.lang", Some(LAM_LANG)),
        is_held(alloc, "Let.ext", Some(LET_EXT)),
        is_held(alloc, "Sample.mod", Some(THREE)),
        is_held(alloc, "Sample.base", None),
    ];
    assert_same(&rt, &hold, &[true; 4]);
    assert_same(&rt, &[LAM_LANG.len(), LET_EXT.len()], &[1492, 193]);
}

/// Whether this is the line of a sample with 300 names.
fn is_line(alloc: Global, wanted: &[u8]) -> bool {
    let summary = Summary {
        number: 300,
        source_tokens: 1501,
        base_tokens: 2401,
        nodes: 1201,
    };
    match summary_line(alloc, &summary) {
        Ok(line) => {
            let is = line.as_slice() == wanted;
            drop(line);
            is
        }
        Err(_) => false,
    }
}

#[test]
fn summary(rt: HostRuntime) {
    let line = b"sample 300: source 1501 tokens, base 2401 tokens, 1201 nodes\n";
    assert!(rt; is_line(rt.alloc(), line));
}
