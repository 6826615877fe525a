//! Terms: their parts and copies, instances and matching.

ghost use Rattle.std.specs.Prelude.{◌≤◌};
ghost use Rattle.sx_term.specs.Tree.{depth_of};
ghost use Rattle.sx_term.specs.Term.{tree};

use crate::asserts::assert_same;
use crate::samples::term;
use std::alloc::Global;
use sx_term::{Bindings, Fit, Path, Term, match_term, subst};

/// Whether the term is that of the core text.
fn is_term(alloc: Global, found: &Term, core: &str) -> bool
    requires { depth_of (tree found.now) ≤ 1000 }
{
    match term(alloc, core) {
        Some(wanted) => {
            let is = found.same(&wanted);
            drop(wanted);
            is
        }
        None => false,
    }
}

/// Whether a copy of the term is equal to it.
fn is_copied(alloc: Global, term: &Term) -> bool
    requires { depth_of (tree term.now) ≤ 1000 }
{
    match term.copy(alloc) {
        Ok(copy) => {
            let is = copy.same(term);
            drop(copy);
            is
        }
        Err(_) => false,
    }
}

/// Whether the part at the path is the term of the core text, where there is such a part.
fn is_part(alloc: Global, term: &Term, path: &Path, part: &str) -> Option<bool>
    requires { depth_of (tree term.now) ≤ 1000 }
{
    match term.at(path) {
        Some(found) => Some(is_term(alloc, found, part)),
        None => None,
    }
}

/// So many steps, each to the first kid; fewer where memory is lacking.
fn first_kids(alloc: Global, count: u32) -> Path {
    let mut steps = Vec::new(alloc);
    for _ in 0..count {
        let _memory = steps.push(0).is_ok();
    }
    Path { steps }
}

/// The same of the part to which so many steps lead, each to the first kid.
fn is_first(alloc: Global, term: &Term, count: u32, part: &str) -> Option<bool>
    requires { depth_of (tree term.now) ≤ 1000 }
{
    let path = first_kids(alloc, count);
    let is = is_part(alloc, term, &path, part);
    drop(path);
    is
}

#[test]
fn parts_and_copies(rt: HostRuntime) {
    let alloc = rt.alloc();
    let core = "(0 (1 n1:7) (2))";
    let (parts, is_copied) = match term(alloc, core) {
        Some(term) => {
            let parts = [
                is_first(alloc, &term, 2, "n1:7"),
                is_first(alloc, &term, 2, "i1:7"),
                is_first(alloc, &term, 3, "n1:7"),
            ];
            let is_copied = is_copied(alloc, &term);
            drop(term);
            (parts, is_copied)
        }
        None => ([None; 3], false),
    };
    assert_same(&rt, &parts, &[Some(true), Some(false), None]);
    assert_same(&rt, &is_copied, &true);
}

/// How the pattern fits the term, and whether it matched.
fn fit_of(alloc: Global, pattern: &str, whole: &str, bound: &mut Bindings) -> Option<Fit> {
    match (term(alloc, pattern), term(alloc, whole)) {
        (Some(pattern), Some(whole)) => {
            let fit = match_term(alloc, &pattern, &whole, bound).ok();
            drop(whole);
            drop(pattern);
            fit
        }
        (pattern, whole) => {
            drop(whole);
            drop(pattern);
            None
        }
    }
}

/// Whether the variable is bound to the term of the core text, where it is bound.
fn is_bound(alloc: Global, bound: &Bindings, variable: u32, core: &str) -> Option<bool> {
    match bound.get(variable) {
        Some(found) => Some(is_term(alloc, found, core)),
        None => None,
    }
}

/// Whether the instance of the pattern is the term of the core text.
fn is_instance_of(alloc: Global, pattern: &Term, bound: &Bindings, core: &str) -> bool
    requires { depth_of (tree pattern.now) ≤ 1000 }
{
    match subst(alloc, pattern, bound) {
        Ok(instance) => {
            let is = is_term(alloc, &instance, core);
            drop(instance);
            is
        }
        Err(_) => false,
    }
}

/// The same of the pattern with this core text.
fn is_instance(alloc: Global, pattern: &str, bound: &Bindings, core: &str) -> bool {
    match term(alloc, pattern) {
        Some(pattern) => {
            let is = is_instance_of(alloc, &pattern, bound, core);
            drop(pattern);
            is
        }
        None => false,
    }
}

/// Binds the variable to the term of the core text, and answers whether it did.
fn set(alloc: Global, bound: &mut Bindings, variable: u32, core: &str) -> bool {
    match term(alloc, core) {
        Some(term) => bound.set(variable, term).is_ok(),
        None => false,
    }
}

#[test]
fn patterns_match(rt: HostRuntime) {
    let alloc = rt.alloc();
    let pattern = "(0 ?0 ?0)";
    let mut bound = Bindings::new(alloc);
    let clash = fit_of(alloc, pattern, "(0 (1) (2))", &mut bound);
    let none = is_bound(alloc, &bound, 0, "(1)");
    let matched = fit_of(alloc, pattern, "(0 (1) (1))", &mut bound);
    let first = is_bound(alloc, &bound, 0, "(1)");
    let is_instance = is_instance(alloc, pattern, &bound, "(0 (1) (1))");
    let is_set = set(alloc, &mut bound, 0, "(2)");
    let second = is_bound(alloc, &bound, 0, "(2)");
    drop(bound);
    assert_same(
        &rt,
        &[clash, matched],
        &[Some(Fit::Clash), Some(Fit::Matched)],
    );
    assert_same(&rt, &[none, first, second], &[None, Some(true), Some(true)]);
    assert_same(&rt, &[is_instance, is_set], &[true; 2]);
}
