//! Nodes by extension rules, lowered.

ghost use Rattle.std.specs.Prelude.{◌≡◌, ◌≤◌, List, length};
ghost use Rattle.sx_term.specs.Tree.{Tree};
ghost use Rattle.sx_term.specs.Instances.{bound_by};
ghost use Rattle.sx_rules.specs.Derivations as spec;
ghost use Rattle.sx_rules.specs.ProofView as view;
ghost use Rattle.sx_rules.specs.Sets.{bare_rules_in};
ghost use Rattle.sx_rewrite.specs.Givens.{givens_of, NumbersBelow};
ghost use Rattle.sx_rewrite.specs.Rewriting.{first_over};
ghost use Rattle.sx_rewrite.specs.Measured.{certificate_terms};
ghost use Rattle.sx_rewrite.specs.Puts.{Answers};
ghost use Rattle.sx_rewrite.specs.Put.{ArePut};
ghost use Rattle.sx_rules.specs.Limits.{most_levels};

use crate::certificate_instance::certificate_instance;
use crate::grafting::graft;
use crate::placed_kids::placed_kids;
use crate::put_terms::PutTerms;
use crate::rewrite_error::RewriteError;
use std::alloc::Global;
use sx_rules::{Proof, RuleSet};

/// The certificate under what is put for the variables of its rule, with the kids at the places of
/// its givens. A kid is moved to its last place and copied for those before it. Each term of the
/// certificate is measured before it is made, node by node in preorder, and the first that passes
/// a limit is refused. Terms that are put are measured where they stand in the certificate alone.
pub(crate) fn certified(
    alloc: Global,
    base: &RuleSet,
    certificate: &Proof,
    puts: &PutTerms,
    kids: Vec<Box<Proof>>,
) -> Result<Box<Proof>, RewriteError>
    requires height { spec.height_of (view.proof certificate.now) ≤ most_levels }
    requires binds { spec.HasShallowBinds (view.proof certificate.now) }
    requires put { (more : List Tree) × ArePut more puts.now }
    requires givens { NumbersBelow (length kids.items) (givens_of (view.proof certificate.now)) }
    requires kids_height { spec.most_height (view.boxed kids.items) ≤ most_levels }
    requires kids_binds { spec.HaveShallowBinds (view.boxed kids.items) }
    requires whole { spec.height_of
        (spec.graft (view.boxed kids.items) (view.proof certificate.now)) ≤ most_levels }
    ensures { (more : List Tree) → ArePut more puts.now →
        Answers (first_over
        (certificate_terms (bare_rules_in base.now) (bound_by more)
        (view.proof certificate.now)))
        (λ x. view.proof x.value ≡ spec.graft (view.boxed kids.items)
        (spec.proof_instance (bound_by more) (view.proof certificate.now))) result }
{
    let mut givens = Vec::new(alloc);
    let body = certificate_instance(alloc, base, certificate, puts, &mut givens)?;
    let placed = placed_kids(alloc, &givens, kids)?;
    Ok(graft(body, placed))
}
