//! Judgements of lowered derivations.

ghost use Rattle.std.specs.Prelude.{◌≡◌, ◌≤◌, IfOk, map};
ghost use Rattle.sx_term.specs.Tree.{greatest_depth, forest};
ghost use Rattle.sx_term.specs.Term.{tree};
ghost use Rattle.sx_term.specs.Instances.{instance, bound_by};
ghost use Rattle.sx_rules.specs.Rules as known;
ghost use Rattle.sx_rules.specs.Derivations.{Derives, AreShallow, HasShallowBinds};
ghost use Rattle.sx_rules.specs.Derivations.{ShallowJudgements};
ghost use Rattle.sx_rules.specs.ProofView as view;
ghost use Rattle.sx_rules.specs.Sets.{bare_rules_in};
ghost use Rattle.sx_rules.specs.Views.{judgement, hypotheses};
ghost use Rattle.sx_term.specs.Limits.{most_depth};

use crate::instance_made::instance_made;
use crate::lowered_subject::hypothesis;
use std::alloc::Global;
use sx_rules::{Hyps, Judgement, Proof, RuleSet};
use sx_term::{NoMemory, Term};

/// The judgement that the derivation by base rules derives from the hypotheses. It is
/// read off the last step alone. The one refusal is out of memory.
pub(crate) fn lowered_judgement(
    alloc: Global,
    base: &RuleSet,
    given: &Hyps,
    proof: &Proof,
) -> Result<Judgement, NoMemory>
    requires binds { HasShallowBinds (view.proof proof.now) }
    requires near { ShallowJudgements (hypotheses given.now).judgements }
    requires derives { (k : known.Judgement)
        × Derives (bare_rules_in base.now) (hypotheses given.now) k (view.proof proof.now) }
    ensures { IfOk result (λ j. (k : known.Judgement) →
        Derives (bare_rules_in base.now) (hypotheses given.now) k (view.proof proof.now) →
        judgement j ≡ k) }
{
    base.facts();
    match proof {
        Proof::By {
            rule,
            binds,
            kids: _,
        } => match base.rule(*rule) {
            Some(found) => instance_judgement(alloc, &found.conclusion, binds),
            None => unreachable!(),
        },
        Proof::Given(number) => match hypothesis(given, *number) {
            Some(found) => found.copy(alloc),
            None => unreachable!(),
        },
    }
}

/// The judgement under these terms. The one refusal is out of memory.
fn instance_judgement(
    alloc: Global,
    from: &Judgement,
    binds: &[Term],
) -> Result<Judgement, NoMemory>
    requires places { AreShallow (judgement from.now).places }
    requires binds { greatest_depth (forest (map tree binds.now)) ≤ most_depth }
    ensures { IfOk result (λ j. judgement j
        ≡ known.judgement_instance (bound_by (map tree binds.now)) (judgement from.now)) }
{
    Ok(Judgement {
        form: from.form,
        places: instances(alloc, &from.places, binds)?,
    })
}

/// The instances of the terms. The one refusal is out of memory.
fn instances(alloc: Global, terms: &[Term], binds: &[Term]) -> Result<Vec<Term>, NoMemory>
    requires terms { greatest_depth (forest (map tree terms.now)) ≤ most_depth }
    requires binds { greatest_depth (forest (map tree binds.now)) ≤ most_depth }
    ensures { IfOk result (λ x. map tree x.items
        ≡ map (instance (bound_by (map tree binds.now))) (map tree terms.now)) }
{
    let mut made = Vec::with_capacity(alloc, terms.len())?;
    for i in 0..terms.len() {
        made.push(instance_made(alloc, &terms[i], binds)?)?;
    }
    Ok(made)
}
