//! Matching of a pattern with a term.

ghost use Rattle.std.specs.Prelude.{◌≡◌, ◌≤◌, ◌++◌, ◌∷◌, [], IfOk, IfSome, OnOk, OnErr};
ghost use Rattle.std.specs.Prelude.{MatchBool, MatchOption, Some, None};
ghost use Rattle.sx_term.specs.Tree.{depth_of};
ghost use Rattle.sx_term.specs.Term.{tree};
ghost use Rattle.sx_term.specs.Bindings.{lookup};
ghost use Rattle.sx_term.specs.Bound.{bindings};
ghost use Rattle.sx_term.specs.Candidates.{candidates};
ghost use Rattle.sx_term.specs.Matching.{IsFit, IsLeast, AddsOnlyOf, NoneMakesEqual};
ghost use Rattle.sx_term.specs.Limits.{most_depth};

use crate::bindings::Bindings;
use crate::candidate::Candidate;
use crate::fit::Fit;
use crate::no_memory::NoMemory;
use crate::term::Term;
use std::alloc::Global;

/// Extends the bindings by the variables of the pattern that are not bound, so that the pattern's
/// instance is the term. Variables of the term are constants.
///
/// Clash comes exactly where no extension does that. It is known before any part of the term is
/// copied. After a Clash, and where memory is lacking, the bindings are as before.
pub fn match_term(
    alloc: Global,
    pattern: &Term,
    term: &Term,
    bound: &mut Bindings,
) -> Result<Fit, NoMemory>
    requires pattern_depth { depth_of (tree pattern.now) ≤ most_depth }
    requires term_depth { depth_of (tree term.now) ≤ most_depth }
    ensures fit { IfOk result (λ fit. IsFit (bindings bound.old) (bindings bound.new)
        (tree pattern.now) (tree term.now) fit) }
    ensures err { OnErr result (bindings bound.new ≡ bindings bound.old) }
{
    let mut parts = Vec::new(alloc);
    if !collect(pattern, term, bound, &mut parts)? {
        return Ok(Fit::Clash);
    }
    bind_all(alloc, &parts, bound)?;
    Ok(Fit::Matched)
}

/// What the variable is bound to, or would be bound to.
fn known<'a>(bound: &'a Bindings, parts: &'a [Candidate<'a>], variable: u32) -> Option<&'a Term>
    ensures value { MatchOption result (lookup (bindings bound.now ++ candidates parts.now) variable
        ≡ None)
        (λ part. lookup (bindings bound.now ++ candidates parts.now) variable
        ≡ Some (tree part.now)) }
    ensures depth { IfSome result (λ part. depth_of (tree part.now) ≤ most_depth) }
{
    if let Some(binding) = bound.entry(variable) {
        return Some(&binding.term);
    }
    for candidate in parts {
        if candidate.variable == variable {
            return Some(candidate.part);
        }
    }
    None
}

/// Finds the parts of the term at the pattern's variables that are not bound, as far as the two
/// agree.
fn collect<'a>(
    pattern: &Term,
    term: &'a Term,
    bound: &Bindings,
    parts: &mut Vec<Candidate<'a>>,
) -> Result<bool, NoMemory>
    requires pattern_depth { depth_of (tree pattern.now) ≤ most_depth }
    requires term_depth { depth_of (tree term.now) ≤ most_depth }
    ensures { IfOk result (λ fits. MatchBool fits
        (IsLeast (bindings bound.now ++ candidates parts.old.items)
        (bindings bound.now ++ candidates parts.new.items) (tree pattern.now) (tree term.now)
        × AddsOnlyOf (bindings bound.now ++ candidates parts.old.items)
        (bindings bound.now ++ candidates parts.new.items) (tree pattern.now))
        (NoneMakesEqual (bindings bound.now ++ candidates parts.old.items) (tree pattern.now)
        (tree term.now))) }
{
    match pattern {
        Term::Node { label, kids } => match term {
            Term::Node {
                label: other_label,
                kids: other_kids,
            } => {
                if *label != *other_label {
                    return Ok(false);
                }
                if kids.len() != other_kids.len() {
                    return Ok(false);
                }
                for i in 0..kids.len() {
                    if !collect(&kids[i], &other_kids[i], bound, parts)? {
                        return Ok(false);
                    }
                }
                Ok(true)
            }
            _ => Ok(false),
        },
        Term::Lex { kind, text } => match term {
            Term::Lex {
                kind: other_kind,
                text: other_text,
            } => Ok(*kind == *other_kind && text.same(other_text)),
            _ => Ok(false),
        },
        Term::Var(variable) => match known(bound, parts, *variable) {
            Some(part) => Ok(part.same(term)),
            None => {
                parts.push(Candidate {
                    variable: *variable,
                    part: term,
                })?;
                Ok(true)
            }
        },
    }
}

/// Binds each variable to a copy of its part, or none of them.
fn bind_all(alloc: Global, parts: &[Candidate], bound: &mut Bindings) -> Result<(), NoMemory>
    ensures ok { OnOk result (bindings bound.new ≡ bindings bound.old ++ candidates parts.now) }
    ensures err { OnErr result (bindings bound.new ≡ bindings bound.old) }
{
    let before = bound.len();
    for candidate in parts {
        if let Err(e) = bind(alloc, candidate, bound) {
            bound.truncate(before);
            return Err(e);
        }
    }
    Ok(())
}

/// Binds the variable to a copy of its part.
fn bind(alloc: Global, candidate: &Candidate, bound: &mut Bindings) -> Result<(), NoMemory>
    ensures ok { OnOk result (bindings bound.new ≡ bindings bound.old
        ++ candidates (candidate.now ∷ [])) }
    ensures err { OnErr result (bindings bound.new ≡ bindings bound.old) }
{
    let term = candidate.part.copy(alloc)?;
    bound.push(candidate.variable, term)
}
