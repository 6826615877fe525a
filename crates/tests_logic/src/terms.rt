//! Terms, goals and rules from core texts.

ghost use Rattle.std.specs.Prelude.{◌≤◌, IfSome, map};
ghost use Rattle.sx_term.specs.Tree.{depth_of};
ghost use Rattle.sx_term.specs.Term.{tree};
ghost use Rattle.sx_rules.specs.Deep.{AreShallow};
ghost use Rattle.sx_rules.specs.Views.{goal as goal_of};

use std::alloc::Global;
use sx_rules::{Goal, Judgement};
use sx_term::{Term, read_core};

/// The term with this core text.
pub(crate) fn term(alloc: Global, core: &str) -> Option<Term>
    ensures { IfSome result (λ t. depth_of (tree t) ≤ 1000) }
{
    match read_core(alloc, core.as_bytes(), 0) {
        Ok((term, _)) => Some(term),
        Err(_) => None,
    }
}

/// The one term with this core text.
pub(crate) fn one_term(alloc: Global, core: &str) -> Option<Vec<Term>>
    ensures { IfSome result (λ ts. AreShallow (map tree ts.items)) }
{
    let mut terms = Vec::new(alloc);
    let term = term(alloc, core)?;
    terms.push(term).ok()?;
    Some(terms)
}

/// The goal of the first form with this subject.
pub(crate) fn goal(alloc: Global, subject: &str) -> Option<Goal>
    ensures { IfSome result (λ g. AreShallow (goal_of g).terms) }
{
    let inputs = one_term(alloc, subject)?;
    Some(Goal { form: 0, inputs })
}

/// The judgement of the first form with this subject and this output.
pub(crate) fn judgement(alloc: Global, subject: &str, output: &str) -> Option<Judgement>
    ensures { IfSome result (λ j. AreShallow (map tree j.places.items)) }
{
    let subject = term(alloc, subject)?;
    let output = term(alloc, output)?;
    let mut places = Vec::new(alloc);
    places.push(subject).ok()?;
    places.push(output).ok()?;
    Some(Judgement { form: 0, places })
}
