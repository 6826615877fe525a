//! Subjects of lowered derivations.

ghost use Rattle.std.specs.Prelude.{◌≡◌, ◌≤◌, IfOk, MatchOption, map};
ghost use Rattle.std.specs.Prelude.{slice_get, Some, None};
ghost use Rattle.sx_term.specs.Tree.{greatest_depth, forest};
ghost use Rattle.sx_term.specs.Term.{tree};
ghost use Rattle.sx_term.specs.Instances.{bound_by};
ghost use Rattle.sx_rules.specs.Rules as known;
ghost use Rattle.sx_rules.specs.Discipline.{subjects_of};
ghost use Rattle.sx_rules.specs.Derivations.{Derives, AreShallow, HasShallowBinds};
ghost use Rattle.sx_rules.specs.Derivations.{ShallowJudgements};
ghost use Rattle.sx_rules.specs.ProofView as view;
ghost use Rattle.sx_rules.specs.Sets.{forms_in, bare_rules_in};
ghost use Rattle.sx_rules.specs.Views.{judgement, hypotheses, subjects_in};
ghost use Rattle.sx_rules.specs.SubjectTerms.{IsSubject};
ghost use Rattle.sx_term.specs.Limits.{most_depth};

use crate::instance_made::instance_made;
use std::alloc::Global;
use sx_rules::{Hyps, Judgement, Proof, RuleSet};
use sx_term::{NoMemory, Term};

/// The subject of the judgement that the derivation by base rules derives from the hypotheses, or
/// None where it has none. It is read off the last step alone. The one refusal is out of memory.
pub(crate) fn lowered_subject(
    alloc: Global,
    base: &RuleSet,
    given: &Hyps,
    proof: &Proof,
) -> Result<Option<Term>, NoMemory>
    requires binds { HasShallowBinds (view.proof proof.now) }
    requires near { ShallowJudgements (hypotheses given.now).judgements }
    ensures { IfOk result (λ s. (k : known.Judgement) →
        Derives (bare_rules_in base.now) (hypotheses given.now) k (view.proof proof.now) →
        IsSubject (subjects_of (subjects_in (forms_in base.now)) k) s) }
{
    base.facts();
    match proof {
        Proof::By {
            rule,
            binds,
            kids: _,
        } => match base.rule(*rule) {
            Some(found) => instance_subject(alloc, base, &found.conclusion, binds),
            None => Ok(None),
        },
        Proof::Given(number) => match hypothesis(given, *number) {
            Some(found) => own_subject(alloc, base, found),
            None => Ok(None),
        },
    }
}

/// The hypothesis with this number, or None where there is none.
pub(crate) fn hypothesis(given: &Hyps, number: u32) -> Option<&Judgement>
    ensures { MatchOption result (slice_get (map judgement given.now.holds.items) number ≡ None)
        (λ j. slice_get (map judgement given.now.holds.items) number ≡ Some (judgement j.now)) }
{
    let place = number as usize;
    if place < given.holds.len() {
        return Some(&given.holds[place]);
    }
    None
}

/// The subject of the judgement under these terms. The one refusal is out of memory.
fn instance_subject(
    alloc: Global,
    set: &RuleSet,
    from: &Judgement,
    binds: &[Term],
) -> Result<Option<Term>, NoMemory>
    requires places { AreShallow (judgement from.now).places }
    requires binds { greatest_depth (forest (map tree binds.now)) ≤ most_depth }
    ensures { IfOk result
        (IsSubject (subjects_of (subjects_in (forms_in set.now))
        (known.judgement_instance (bound_by (map tree binds.now)) (judgement from.now)))) }
{
    match set.subject_of(from) {
        Some(term) => Ok(Some(instance_made(alloc, term, binds)?)),
        None => Ok(None),
    }
}

/// The subject of the judgement. The one refusal is out of memory.
fn own_subject(alloc: Global, set: &RuleSet, from: &Judgement) -> Result<Option<Term>, NoMemory>
    requires { AreShallow (judgement from.now).places }
    ensures { IfOk result
        (IsSubject (subjects_of (subjects_in (forms_in set.now)) (judgement from.now))) }
{
    match set.subject_of(from) {
        Some(term) => Ok(Some(term.copy(alloc)?)),
        None => Ok(None),
    }
}
