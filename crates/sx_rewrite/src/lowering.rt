//! Derivations that are lowered.

ghost use Rattle.std.specs.Prelude.{◌≡◌, ℕ, ◌<◌, ◌≤◌, true, Some, MatchResult};
ghost use Rattle.sx_rules.specs.Derivations as spec;
ghost use Rattle.sx_rules.specs.ProofView as view;
ghost use Rattle.sx_rules.specs.Sets.{forms_in};
ghost use Rattle.sx_rules.specs.Views.{hypotheses, subjects_in};
ghost use Rattle.sx_rewrite.specs.AcceptedView.{accepted};
ghost use Rattle.sx_rewrite.specs.Lowering.{CanLower, IsLoweredTo, AreLoweredTo, IsLoweringRefused};
ghost use Rattle.sx_rewrite.specs.Lowering.{AreRefused, IsKidLowered, IsKidRefused};
ghost use Rattle.sx_rewrite.specs.Needed.{needed};
ghost use Rattle.sx_rewrite.specs.SourceView.{set_of, IsSource};
ghost use Rattle.sx_rewrite.specs.Stored.{certificate_at};
ghost use Rattle.sx_rules.specs.Limits.{most_levels};

use crate::lowered_node::lowered_node;
use crate::putting::put_terms;
use crate::rewrite_error::RewriteError;
use crate::source::Source;
use std::alloc::Global;
use sx_rules::Proof;

/// What the derivation is lowered to. The first of the measured terms that passes a limit is
/// refused: those of the kids that a node needs, and then those of the node.
#[cycle(lowering)]
pub(crate) fn lower_proof(
    alloc: Global,
    source: &Source,
    proof: &Proof,
) -> Result<Box<Proof>, RewriteError>
    requires shallow { spec.height_of (view.proof proof.now) ≤ most_levels }
    requires source { IsSource source.now }
    requires derived { CanLower (set_of source.now) (hypotheses source.now.given.now)
        (view.proof proof.now) }
    ensures { MatchResult result
        (λ x. IsLoweredTo (set_of source.now) (subjects_in (forms_in source.now.set.now.base))
        (hypotheses source.now.given.now) (view.proof proof.now) (view.proof x.value))
        (IsLoweringRefused (set_of source.now) (subjects_in (forms_in source.now.set.now.base))
        (hypotheses source.now.given.now) (view.proof proof.now)) }
{
    match proof {
        Proof::By { rule, binds, kids } => {
            let lowered = lower_kids(alloc, source, *rule, kids)?;
            let puts = put_terms(alloc, source, *rule, binds, &lowered)?;
            lowered_node(alloc, source.set, *rule, puts, lowered)
        }
        Proof::Given(number) => Ok(Box::new(alloc, Proof::Given(*number))?),
    }
}

/// What the kids of a node by the rule are lowered to.
/// In the place of a kid that is not needed stands a given.
#[cycle(lowering)]
fn lower_kids(
    alloc: Global,
    source: &Source,
    rule: u32,
    kids: &[Box<Proof>],
) -> Result<Vec<Box<Proof>>, RewriteError>
    requires shallow { spec.most_height (view.boxed kids.now) < most_levels }
    requires source { IsSource source.now }
    requires derived { (i : ℕ) (p : spec.Proof) →
        needed (certificate_at (accepted source.now.set.now) rule) i ≡ true →
        spec.proof_at (view.boxed kids.now) i ≡ Some p →
        CanLower (set_of source.now) (hypotheses source.now.given.now) p }
    ensures { MatchResult result
        (λ x. AreLoweredTo (set_of source.now) (subjects_in (forms_in source.now.set.now.base))
        (hypotheses source.now.given.now)
        (needed (certificate_at (accepted source.now.set.now) rule))
        (view.boxed kids.now) (view.boxed x.items))
        (AreRefused (set_of source.now) (subjects_in (forms_in source.now.set.now.base))
        (hypotheses source.now.given.now)
        (needed (certificate_at (accepted source.now.set.now) rule)) (view.boxed kids.now)) }
{
    let mut lowered = Vec::with_capacity(alloc, kids.len())?;
    for i in 0..kids.len() {
        lowered.push(lower_kid(alloc, source, rule, i, &kids[i])?)?;
    }
    Ok(lowered)
}

/// What the kid with this number of a node by the rule is lowered to,
/// or a given where it is not needed.
#[cycle(lowering)]
fn lower_kid(
    alloc: Global,
    source: &Source,
    rule: u32,
    number: usize,
    kid: &Proof,
) -> Result<Box<Proof>, RewriteError>
    requires shallow { spec.height_of (view.proof kid.now) < most_levels }
    requires source { IsSource source.now }
    requires derived { needed (certificate_at (accepted source.now.set.now) rule) number ≡ true →
        CanLower (set_of source.now) (hypotheses source.now.given.now) (view.proof kid.now) }
    ensures { MatchResult result
        (λ x. IsKidLowered (set_of source.now) (subjects_in (forms_in source.now.set.now.base))
        (hypotheses source.now.given.now)
        (needed (certificate_at (accepted source.now.set.now) rule) number)
        (view.proof kid.now) (view.proof x.value))
        (IsKidRefused (set_of source.now) (subjects_in (forms_in source.now.set.now.base))
        (hypotheses source.now.given.now)
        (needed (certificate_at (accepted source.now.set.now) rule) number)
        (view.proof kid.now)) }
{
    if source.set.is_needed(rule, number) {
        return lower_proof(alloc, source, kid);
    }
    Ok(Box::new(alloc, Proof::Given(0))?)
}
