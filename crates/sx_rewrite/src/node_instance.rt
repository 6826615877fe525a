//! The terms of one node of a certificate, under what is put for the variables.

ghost use Rattle.std.specs.Prelude.{◌≡◌, ◌≤◌, List, map, slice_get};
ghost use Rattle.sx_term.specs.Tree.{Tree, greatest_depth, forest};
ghost use Rattle.sx_term.specs.Term.{tree};
ghost use Rattle.sx_term.specs.Instances.{instance, bound_by};
ghost use Rattle.sx_rules.specs.Sets.{bare_rules_in};
ghost use Rattle.sx_plain.specs.Measures.{greatest};
ghost use Rattle.sx_plain.specs.PartMeasures.{depths_of};
ghost use Rattle.sx_rewrite.specs.Rewriting.{first_over};
ghost use Rattle.sx_rewrite.specs.Measured.{node_terms};
ghost use Rattle.sx_rewrite.specs.Puts.{AreMeasuresOf, Answers};
ghost use Rattle.sx_rewrite.specs.Put.{ArePut, ArePutsMade, conclusion_terms};
ghost use Rattle.sx_term.specs.Limits.{most_depth};

use crate::instance_made::instance_made;
use crate::instance_measuring::instance_measure;
use crate::limits::check_measure;
use crate::put_terms::PutTerms;
use crate::rewrite_error::RewriteError;
use std::alloc::Global;
use sx_plain::Measure;
use sx_rules::RuleSet;
use sx_term::Term;

/// The instances of the bindings of a node by the rule with this number. Each is
/// measured before it is made, and after them the places of the rule's conclusion
/// under them are measured. The first that passes a limit is refused.
pub(crate) fn node_instance(
    alloc: Global,
    base: &RuleSet,
    rule: u32,
    binds: &[Term],
    puts: &PutTerms,
) -> Result<Vec<Term>, RewriteError>
    requires shallow { greatest_depth (forest (map tree binds.now)) ≤ most_depth }
    requires put { (more : List Tree) × ArePut more puts.now }
    ensures { (more : List Tree) → ArePut more puts.now →
        Answers (first_over
        (node_terms (slice_get (bare_rules_in base.now) rule)
        (map (instance (bound_by more)) (map tree binds.now))))
        (λ x. map tree x.items ≡ map (instance (bound_by more)) (map tree binds.now)) result }
{
    let made = instances(alloc, binds, puts)?;
    check_conclusion(base, rule, &made.measures)?;
    let PutTerms { terms, measures } = made;
    drop(measures);
    Ok(terms)
}

/// The instances of the terms, with how deep and how big they are. Each is measured
/// before it is made, and the first that passes a limit is refused.
fn instances(alloc: Global, terms: &[Term], puts: &PutTerms) -> Result<PutTerms, RewriteError>
    requires shallow { greatest_depth (forest (map tree terms.now)) ≤ most_depth }
    requires put { (more : List Tree) × ArePut more puts.now }
    ensures { (more : List Tree) → ArePut more puts.now →
        Answers (first_over (map (instance (bound_by more)) (map tree terms.now)))
        (ArePutsMade (map (instance (bound_by more)) (map tree terms.now))) result }
{
    let mut made = Vec::with_capacity(alloc, terms.len())?;
    let mut measures = Vec::with_capacity(alloc, terms.len())?;
    for i in 0..terms.len() {
        let term = &terms[i];
        let measure = instance_measure(term, &puts.measures);
        check_measure(measure)?;
        made.push(instance_made(alloc, term, &puts.terms)?)?;
        measures.push(measure)?;
    }
    Ok(PutTerms {
        terms: made,
        measures,
    })
}

/// Refuses the first place of the conclusion of the rule with this number that passes a limit
/// under terms of these measures. Nothing is made. A number without a rule has no places.
pub fn check_conclusion(base: &RuleSet, rule: u32, measures: &[Measure]) -> Result<(), RewriteError>
    requires { greatest (depths_of measures.now) ≤ 1001000 }
    ensures { (binds : List Tree) → AreMeasuresOf binds measures.now →
        Answers (first_over (conclusion_terms (slice_get (bare_rules_in base.now) rule) binds))
        (λ _. Unit {0}) result }
{
    base.facts();
    match base.rule(rule) {
        Some(found) => check_places(&found.conclusion.places, measures),
        None => Ok(()),
    }
}

/// Refuses the first of the terms that passes a limit under terms of these measures.
/// Nothing is made.
fn check_places(places: &[Term], measures: &[Measure]) -> Result<(), RewriteError>
    requires shallow { greatest_depth (forest (map tree places.now)) ≤ most_depth }
    requires measured { greatest (depths_of measures.now) ≤ 1001000 }
    ensures { (binds : List Tree) → AreMeasuresOf binds measures.now →
        Answers (first_over (map (instance (bound_by binds)) (map tree places.now)))
        (λ _. Unit {0}) result }
{
    for i in 0..places.len() {
        check_measure(instance_measure(&places[i], measures))?;
    }
    Ok(())
}
