//! Certificates under what is put for the variables of their rules.

ghost use Rattle.std.specs.Prelude.{◌≡◌, ◌++◌, ◌∷◌, [], ◌<◌, ◌≤◌, List, IfOk, MatchResult};
ghost use Rattle.std.specs.Prelude.{length, map};
ghost use Rattle.sx_term.specs.Tree.{Tree};
ghost use Rattle.sx_term.specs.Term.{tree};
ghost use Rattle.sx_term.specs.Instances.{bound_by};
ghost use Rattle.sx_rules.specs.Derivations as spec;
ghost use Rattle.sx_rules.specs.ProofView as view;
ghost use Rattle.sx_rules.specs.Sets.{bare_rules_in};
ghost use Rattle.sx_rewrite.specs.Givens.{givens_of, givens_of_all, numbered_proof, all_numbered};
ghost use Rattle.sx_rewrite.specs.Rewriting.{first_over};
ghost use Rattle.sx_rewrite.specs.Measured.{certificate_terms, certificate_terms_of};
ghost use Rattle.sx_rewrite.specs.Puts.{Answers};
ghost use Rattle.sx_rewrite.specs.Put.{ArePut};
ghost use Rattle.sx_rewrite.specs.declared.rewrite_error.RewriteError.TheVariants.{Memory};
ghost use Rattle.sx_rules.specs.Limits.{most_levels};

use crate::node_instance::node_instance;
use crate::put_terms::PutTerms;
use crate::rewrite_error::RewriteError;
use std::alloc::Global;
use sx_rules::{Proof, RuleSet};
use sx_term::Term;

/// The instance of the certificate, with its givens numbered in preorder from the number of givens
/// so far; after those so far it adds which given stands at each. Each term is measured before it
/// is made, node by node in preorder, and the first that passes a limit is refused.
#[cycle(certificate)]
pub(crate) fn certificate_instance(
    alloc: Global,
    base: &RuleSet,
    certificate: &Proof,
    puts: &PutTerms,
    givens: &mut Vec<u32>,
) -> Result<Box<Proof>, RewriteError>
    requires height { spec.height_of (view.proof certificate.now) ≤ most_levels }
    requires binds { spec.HasShallowBinds (view.proof certificate.now) }
    requires put { (more : List Tree) × ArePut more puts.now }
    ensures body { (more : List Tree) → ArePut more puts.now →
        Answers (first_over
        (certificate_terms (bare_rules_in base.now) (bound_by more)
        (view.proof certificate.now)))
        (λ x. view.proof x.value ≡ numbered_proof (length givens.old.items)
        (spec.proof_instance (bound_by more) (view.proof certificate.now))) result }
    ensures givens { IfOk result
        (λ _. givens.new.items ≡ givens.old.items ++ givens_of (view.proof certificate.now)) }
{
    match certificate {
        Proof::By { rule, binds, kids } => {
            let terms = node_instance(alloc, base, *rule, binds, puts)?;
            let made = kid_instances(alloc, base, kids, puts, givens)?;
            by_rule(alloc, *rule, terms, made)
        }
        Proof::Given(given) => place(alloc, *given, givens),
    }
}

/// The instances of the certificates, one after another.
#[cycle(certificate)]
fn kid_instances(
    alloc: Global,
    base: &RuleSet,
    kids: &[Box<Proof>],
    puts: &PutTerms,
    givens: &mut Vec<u32>,
) -> Result<Vec<Box<Proof>>, RewriteError>
    requires height { spec.most_height (view.boxed kids.now) < most_levels }
    requires binds { spec.HaveShallowBinds (view.boxed kids.now) }
    requires put { (more : List Tree) × ArePut more puts.now }
    ensures bodies { (more : List Tree) → ArePut more puts.now →
        Answers (first_over
        (certificate_terms_of (bare_rules_in base.now) (bound_by more) (view.boxed kids.now)))
        (λ x. view.boxed x.items ≡ all_numbered (length givens.old.items)
        (spec.proof_instances (bound_by more) (view.boxed kids.now))) result }
    ensures givens { IfOk result
        (λ _. givens.new.items ≡ givens.old.items ++ givens_of_all (view.boxed kids.now)) }
{
    let mut made = Vec::with_capacity(alloc, kids.len())?;
    for i in 0..kids.len() {
        made.push(certificate_instance(alloc, base, &kids[i], puts, givens)?)?;
    }
    Ok(made)
}

/// The derivation by the rule with these bindings and kids. The one refusal is out of memory.
pub(crate) fn by_rule(
    alloc: Global,
    rule: u32,
    binds: Vec<Term>,
    kids: Vec<Box<Proof>>,
) -> Result<Box<Proof>, RewriteError>
    ensures { MatchResult result
        (λ x. view.proof x.value ≡ spec.by rule (map tree binds.items) (view.boxed kids.items))
        (λ e. e ≡ Memory) }
{
    Ok(Box::new(alloc, Proof::By { rule, binds, kids })?)
}

/// The next given, and after those so far which it is. The one refusal is out of memory:
/// there is no room for more than 2^32 of them.
fn place(alloc: Global, given: u32, givens: &mut Vec<u32>) -> Result<Box<Proof>, RewriteError>
    ensures proof { MatchResult result
        (λ x. view.proof x.value ≡ spec.given (length givens.old.items)) (λ e. e ≡ Memory) }
    ensures givens { IfOk result (λ _. givens.new.items ≡ givens.old.items ++ given ∷ []) }
{
    let Ok(number) = u32::try_from(givens.len()) else {
        return Err(RewriteError::Memory);
    };
    let made = Box::new(alloc, Proof::Given(number))?;
    givens.push(given)?;
    Ok(made)
}
