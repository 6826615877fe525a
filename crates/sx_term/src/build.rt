//! The core notation: the term of a core text.

ghost use Rattle.std.specs.Prelude.{◌≡◌, ℕ, ◌<◌, ◌≤◌, List, ◌+◌, take, drop, length, IfOk};
ghost use Rattle.std.specs.Str.{IsUtf8};
ghost use Rattle.sx_term.specs.Tree.{Tree, depth_of, lexeme};
ghost use Rattle.sx_term.specs.Term.{tree};
ghost use Rattle.sx_term.specs.Core.{core, HasCore};
ghost use Rattle.sx_term.specs.Reading.{Starts, IsBuilt};
ghost use Rattle.sx_term.specs.Limits.{most_depth};

use crate::lex_kind::LexKind;
use crate::no_memory::NoMemory;
use crate::scan::{lead, number};
use crate::term::Term;
use crate::text::Text;
use crate::text_error::TextError;
use std::alloc::Global;

/// The term whose core text begins at the place, and the place after it.
pub(crate) fn build(alloc: Global, text: &[u8], at: usize) -> Result<(Term, usize), NoMemory>
    requires place { at ≤ length text.now }
    requires starts { (t : Tree) × (depth_of t ≤ most_depth) × Starts (drop at text.now) t }
    ensures { IfOk result (λ r. IsBuilt text.now at (tree r.0) r.1) }
{
    if at == text.len() {
        unreachable!();
    }
    let first = text[at];
    if first == b'?' {
        return match number(text, at + 1, 0, 63) {
            Some((variable, next)) => Ok((Term::Var(variable), next)),
            None => unreachable!(),
        };
    }
    if first != b'(' {
        return build_lexeme(alloc, text, at);
    }
    match number(text, at + 1, 0, 4_294_967_295) {
        None => unreachable!(),
        Some((label, after_label)) => {
            let mut next = after_label;
            let mut kids = Vec::new(alloc);
            while next < text.len() && text[next] == b' ' {
                let (kid, after) = build(alloc, text, next + 1)?;
                kids.push(kid)?;
                next = after;
            }
            if next == text.len() {
                unreachable!();
            }
            Ok((Term::Node { label, kids }, next + 1))
        }
    }
}

/// The lexeme whose core text begins at the place.
fn build_lexeme(alloc: Global, text: &[u8], at: usize) -> Result<(Term, usize), NoMemory>
    requires place { at < length text.now }
    requires starts { (kind : LexKind) × (bytes : List ℕ) ×
        Starts (drop at text.now) (lexeme kind bytes) }
    ensures { IfOk result (λ r. IsBuilt text.now at (tree r.0) r.1) }
{
    let first = text[at];
    let kind = if first == b'i' {
        LexKind::Id
    } else if first == b'n' {
        LexKind::Num
    } else {
        LexKind::Str
    };
    match number(text, at + 1, 1, 65535) {
        None => unreachable!(),
        Some((len, colon)) => {
            let made = text_at(alloc, text, colon + 1, len)?;
            let end = colon + 1 + len as usize;
            Ok((Term::Lex { kind, text: made }, end))
        }
    }
}

/// The text of so many bytes at the place.
fn text_at(alloc: Global, bytes: &[u8], start: usize, len: u32) -> Result<Text, NoMemory>
    requires place { start + len ≤ length bytes.now }
    requires utf8 { IsUtf8 (take len (drop start bytes.now)) }
    ensures { IfOk result (λ t. t ≡ take len (drop start bytes.now)) }
{
    let rest = &bytes[start..];
    match Text::make(alloc, &rest[..len as usize]) {
        Ok(text) => Ok(text),
        Err(TextError::Memory) => Err(NoMemory::Memory),
        Err(TextError::NotUtf8(_)) => unreachable!(),
    }
}

/// The depth of the term that the text is the core text of.
pub(crate) fn depth_in(text: &[u8]) -> usize
    ensures { (t : Tree) → HasCore t → text.now ≡ core t → result ≡ depth_of t }
{
    let mut at = 0;
    let mut nodes: usize = 0;
    let mut deepest: usize = 0;
    let mut wants = true;
    while wants || nodes > 0 {
        if wants {
            match lead(text, at) {
                Ok((opens, next)) => {
                    if deepest <= nodes {
                        deepest = nodes + 1;
                    }
                    if opens {
                        nodes += 1;
                    }
                    at = next;
                    wants = false;
                }
                Err(_) => return 0,
            }
        } else {
            if at == text.len() {
                return 0;
            }
            let byte = text[at];
            if byte == b')' {
                nodes -= 1;
            } else if byte == b' ' {
                wants = true;
            } else {
                return 0;
            }
            at += 1;
        }
    }
    deepest
}
