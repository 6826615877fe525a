//! Nodes whose kids are lowered.

ghost use Rattle.std.specs.Prelude.{◌≡◌, ◌≤◌, List, None};
ghost use Rattle.sx_term.specs.Tree.{Tree};
ghost use Rattle.sx_rules.specs.Derivations as spec;
ghost use Rattle.sx_rules.specs.ProofView as view;
ghost use Rattle.sx_rules.specs.Sets.{bare_rules_in};
ghost use Rattle.sx_rewrite.specs.AcceptedView.{accepted};
ghost use Rattle.sx_rewrite.specs.Lowering.{own_terms, own_proof, CanGraft};
ghost use Rattle.sx_rewrite.specs.Put.{ArePut};
ghost use Rattle.sx_rewrite.specs.Puts.{Answers};
ghost use Rattle.sx_rewrite.specs.Rewriting.{first_over};
ghost use Rattle.sx_rewrite.specs.Stored.{certificate_at};
ghost use Rattle.sx_rules.specs.Limits.{most_levels};

use crate::accepted::Accepted;
use crate::basing::based;
use crate::certificate_instance::by_rule;
use crate::certifying::certified;
use crate::put_terms::PutTerms;
use crate::rewrite_error::RewriteError;
use std::alloc::Global;
use sx_rules::{Proof, RuleSet};

/// The node by the rule, with what is put for its variables, over lowered kids: the
/// certificate of an extension rule with the kids at the places of its givens, and a base
/// rule as it is. The first of its terms that passes a limit is refused.
pub(crate) fn lowered_node(
    alloc: Global,
    set: &Accepted,
    rule: u32,
    puts: PutTerms,
    kids: Vec<Box<Proof>>,
) -> Result<Box<Proof>, RewriteError>
    requires put { (more : List Tree) × ArePut more puts }
    requires graft { CanGraft (certificate_at (accepted set.now) rule) (view.boxed kids.items) }
    requires height { spec.most_height (view.boxed kids.items) ≤ most_levels }
    requires binds { spec.HaveShallowBinds (view.boxed kids.items) }
    ensures { (more : List Tree) → ArePut more puts →
        Answers (first_over
        (own_terms (bare_rules_in set.now.base)
        (certificate_at (accepted set.now) rule) rule more))
        (λ x. view.proof x.value ≡ own_proof (certificate_at (accepted set.now) rule) rule more
        (view.boxed kids.items)) result }
{
    match set.certificate(rule) {
        Some(certificate) => {
            let made = certified(alloc, &set.base, certificate, &puts, kids);
            drop(puts);
            made
        }
        None => base_node(alloc, &set.base, rule, puts, kids),
    }
}

/// The node by the base rule, with what is put for its variables, over lowered kids.
fn base_node(
    alloc: Global,
    base: &RuleSet,
    rule: u32,
    puts: PutTerms,
    kids: Vec<Box<Proof>>,
) -> Result<Box<Proof>, RewriteError>
    ensures { (more : List Tree) → ArePut more puts →
        Answers (first_over (own_terms (bare_rules_in base.now) None rule more))
        (λ x. view.proof x.value ≡ own_proof None rule more (view.boxed kids.items)) result }
{
    match based(base, rule, puts) {
        Ok(binds) => by_rule(alloc, rule, binds, kids),
        Err(e) => {
            drop(kids);
            Err(e)
        }
    }
}
