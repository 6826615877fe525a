//! Nodes by base rules, lowered.

ghost use Rattle.std.specs.Prelude.{◌≡◌, List, map, slice_get};
ghost use Rattle.sx_term.specs.Tree.{Tree};
ghost use Rattle.sx_term.specs.Term.{tree};
ghost use Rattle.sx_rules.specs.Sets.{bare_rules_in};
ghost use Rattle.sx_rewrite.specs.Rewriting.{first_over};
ghost use Rattle.sx_rewrite.specs.Measured.{node_terms};
ghost use Rattle.sx_rewrite.specs.Puts.{AreMeasuresOf, Answers};
ghost use Rattle.sx_rewrite.specs.Put.{ArePut};

use crate::limits::check_measure;
use crate::node_instance::check_conclusion;
use crate::put_terms::PutTerms;
use crate::rewrite_error::RewriteError;
use sx_plain::Measure;
use sx_rules::RuleSet;
use sx_term::Term;

/// The bindings of a node by the base rule with this number: the terms that
/// are put. The first of them, or else of the places of the rule's
/// conclusion under them, that passes a limit is refused.
pub(crate) fn based(base: &RuleSet, rule: u32, puts: PutTerms) -> Result<Vec<Term>, RewriteError>
    ensures { (more : List Tree) → ArePut more puts →
        Answers (first_over (node_terms (slice_get (bare_rules_in base.now) rule) more))
        (λ x. map tree x.items ≡ more) result }
{
    check_measures(&puts.measures)?;
    check_conclusion(base, rule, &puts.measures)?;
    let PutTerms { terms, measures } = puts;
    drop(measures);
    Ok(terms)
}

/// Refuses the first of the measures that passes a limit.
pub fn check_measures(measures: &[Measure]) -> Result<(), RewriteError>
    ensures { (ts : List Tree) → AreMeasuresOf ts measures.now →
        Answers (first_over ts) (λ _. Unit {0}) result }
{
    for measure in measures {
        check_measure(*measure)?;
    }
    Ok(())
}
