//! Goals from core texts, and what is asked of a goal.

ghost use Rattle.std.specs.Prelude.{◌≡◌, ◌≤◌, [], true, IfSome, length, map};
ghost use Rattle.sx_term.specs.Shapes.{shapes};
ghost use Rattle.sx_term.specs.Sorts.{HaveSorts};
ghost use Rattle.sx_term.specs.Term.{tree};
ghost use Rattle.sx_term.specs.Tree.{depth_of};
ghost use Rattle.sx_rules.specs.Deep.{AreShallow};
ghost use Rattle.sx_rules.specs.Modes.{inputs, outputs};
ghost use Rattle.sx_rules.specs.Views.{goal as goal_of, is_out, is_sub};

use std::alloc::Global;
use sx_rules::{Goal, Place};
use sx_term::{Role, Shapes, Term, read_core};

/// The term with this core text.
pub(crate) fn term(alloc: Global, core: &str) -> Option<Term>
    ensures { IfSome result (λ t. depth_of (tree t) ≤ 1000) }
{
    match read_core(alloc, core.as_bytes(), 0) {
        Ok((term, _)) => Some(term),
        Err(_) => None,
    }
}

/// The goal of the first form with the first constructor at its input, and this subject.
pub(crate) fn one_goal(alloc: Global, subject: &str) -> Option<Goal>
    ensures { IfSome result (λ g. AreShallow (goal_of g).terms) }
{
    let first = term(alloc, "(0)")?;
    let subject = term(alloc, subject)?;
    let mut inputs = Vec::new(alloc);
    inputs.push(first).ok()?;
    inputs.push(subject).ok()?;
    Some(Goal { form: 0, inputs })
}

/// Whether the terms have the sorts of the places that are no outputs, in order.
pub(crate) fn inputs_fit(all: &Shapes, places: &[Place], terms: &[Term]) -> bool
    requires { AreShallow (map tree terms.now) }
    ensures { result ≡ true → HaveSorts (shapes all.now) [] (map tree terms.now)
        (inputs (map (λ p. is_out p.role) places.now) (map (λ p. p.sort) places.now)) }
{
    let mut at = 0;
    for place in places {
        match place.role {
            Role::In | Role::Sub => {
                if at >= terms.len() || !all.fits(&terms[at], &[], place.sort) {
                    return false;
                }
                at += 1;
            }
            Role::Out => {}
        }
    }
    at == terms.len()
}

/// How many of the places are subjects.
pub(crate) fn subject_count(places: &[Place]) -> usize
    ensures { result ≡ length (outputs (map (λ p. is_sub p.role) places.now) places.now) }
{
    let mut count = 0;
    for place in places {
        match place.role {
            Role::Sub => count += 1,
            Role::In | Role::Out => {}
        }
    }
    count
}
