//! The limits of the terms of lowered nodes, by measures alone.

ghost use Rattle.std.specs.Prelude.{◌≤◌, List, IfOk, map, slice_get, None};
ghost use Rattle.sx_term.specs.Tree.{Tree, greatest_depth, forest};
ghost use Rattle.sx_term.specs.Term.{tree};
ghost use Rattle.sx_term.specs.Instances.{instance, bound_by};
ghost use Rattle.sx_rules.specs.Derivations as spec;
ghost use Rattle.sx_rules.specs.ProofView as view;
ghost use Rattle.sx_rules.specs.Sets.{bare_rules_in};
ghost use Rattle.sx_plain.specs.Measures.{greatest};
ghost use Rattle.sx_plain.specs.PartMeasures.{depths_of};
ghost use Rattle.sx_rewrite.specs.AcceptedView.{accepted};
ghost use Rattle.sx_rewrite.specs.Lowering.{own_terms};
ghost use Rattle.sx_rewrite.specs.Measured.{node_terms, certificate_terms};
ghost use Rattle.sx_rewrite.specs.Puts.{AreMeasuresOf, Answers};
ghost use Rattle.sx_rewrite.specs.Rewriting.{first_over};
ghost use Rattle.sx_rewrite.specs.Stored.{certificate_at};
ghost use Rattle.sx_rules.specs.Limits.{most_levels};
ghost use Rattle.sx_term.specs.Limits.{most_depth};

use std::alloc::Global;
use sx_plain::Measure;
use sx_rewrite::{
    Accepted, RewriteError, check_conclusion, check_measure, check_measures, instance_measure,
};
use sx_rules::{Proof, RuleSet};
use sx_term::Term;

/// Refuses the first term that passes a limit of a node by the rule, under terms of these measures
/// for the rule's variables: of its certificate, or else of the node itself. No term is made.
pub fn check_node(
    alloc: Global,
    set: &Accepted,
    rule: u32,
    parts: &[Measure],
) -> Result<(), RewriteError>
    requires { greatest (depths_of parts.now) ≤ 1001000 }
    ensures { (more : List Tree) → AreMeasuresOf more parts.now →
        Answers (first_over
        (own_terms (bare_rules_in set.now.base)
        (certificate_at (accepted set.now) rule) rule more))
        (λ _. Unit {0}) result }
{
    match set.certificate(rule) {
        Some(certificate) => check_certificate(alloc, set.base_rules(), certificate, parts),
        None => check_base_node(set.base_rules(), rule, parts),
    }
}

/// Refuses the first of the terms of a node by the base rule that passes a limit: of those that
/// are bound, which have these measures, or else of the conclusion's places under them.
fn check_base_node(base: &RuleSet, rule: u32, parts: &[Measure]) -> Result<(), RewriteError>
    requires { greatest (depths_of parts.now) ≤ 1001000 }
    ensures { (more : List Tree) → AreMeasuresOf more parts.now →
        Answers (first_over (node_terms (slice_get (bare_rules_in base.now) rule) more))
        (λ _. Unit {0}) result }
{
    check_measures(parts)?;
    check_conclusion(base, rule, parts)
}

/// Refuses the first term of the certificate, node by node in preorder, that passes a limit under
/// terms of these measures.
fn check_certificate(
    alloc: Global,
    base: &RuleSet,
    certificate: &Proof,
    parts: &[Measure],
) -> Result<(), RewriteError>
    requires height { spec.height_of (view.proof certificate.now) ≤ most_levels }
    requires binds { spec.HasShallowBinds (view.proof certificate.now) }
    requires parts { greatest (depths_of parts.now) ≤ 1001000 }
    ensures { (more : List Tree) → AreMeasuresOf more parts.now →
        Answers (first_over
        (certificate_terms (bare_rules_in base.now) (bound_by more)
        (view.proof certificate.now)))
        (λ _. Unit {0}) result }
{
    match certificate {
        Proof::By { rule, binds, kids } => {
            let measures = instance_measures(alloc, binds, parts)?;
            check_conclusion(base, *rule, &measures)?;
            for kid in kids {
                check_certificate(alloc, base, kid, parts)?;
            }
            Ok(())
        }
        Proof::Given(_) => Ok(()),
    }
}

/// How deep and how big the instances of the terms are, by parts of these measures. The
/// first that passes a limit is refused.
fn instance_measures(
    alloc: Global,
    terms: &[Term],
    parts: &[Measure],
) -> Result<Vec<Measure>, RewriteError>
    requires shallow { greatest_depth (forest (map tree terms.now)) ≤ most_depth }
    requires parts { greatest (depths_of parts.now) ≤ 1001000 }
    ensures low { IfOk result (λ x. greatest (depths_of x.items) ≤ 1001000) }
    ensures measures { (more : List Tree) → AreMeasuresOf more parts.now →
        Answers (first_over (map (instance (bound_by more)) (map tree terms.now)))
        (λ x. AreMeasuresOf (map (instance (bound_by more)) (map tree terms.now)) x.items)
        result }
{
    let mut measures = Vec::with_capacity(alloc, terms.len())?;
    for i in 0..terms.len() {
        let measure = instance_measure(&terms[i], parts);
        check_measure(measure)?;
        measures.push(measure)?;
    }
    Ok(measures)
}
