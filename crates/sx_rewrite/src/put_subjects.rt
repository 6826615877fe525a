//! Subjects of lowered kids, put for the variables that are subjects of premises.

ghost use Rattle.std.specs.Prelude.{◌≡◌, ◌≤◌, List, [], length, map, slice_set, OnOk};
ghost use Rattle.sx_term.specs.Term.{tree};
ghost use Rattle.sx_term.specs.Tree.{Tree, depth_of};
ghost use Rattle.sx_rules.specs.Rules as known;
ghost use Rattle.sx_rules.specs.Rules.{judgements_of};
ghost use Rattle.sx_rules.specs.Discipline.{AreBareSubjects};
ghost use Rattle.sx_rules.specs.Derivations.{ShallowJudgements};
ghost use Rattle.sx_rules.specs.ProofView as view;
ghost use Rattle.sx_rules.specs.Sets.{forms_in, bare_rules_in};
ghost use Rattle.sx_rules.specs.Views.{judgement, premise, hypotheses, subjects_in};
ghost use Rattle.sx_rewrite.specs.Put.{ArePut};
ghost use Rattle.sx_rewrite.specs.PutSubjects.{IsProofReady, IsSubjectPut, AreReady, ArePutBelow};
ghost use Rattle.sx_rewrite.specs.Needed.{needed};
ghost use Rattle.sx_rewrite.specs.Stored.{certificate_at};
ghost use Rattle.sx_rewrite.specs.AcceptedView.{accepted};
ghost use Rattle.sx_term.specs.Limits.{most_depth};

use crate::lowered_subject::lowered_subject;
use crate::put_terms::PutTerms;
use crate::source::Source;
use crate::subject_variable::premise_variable;
use std::alloc::Global;
use sx_plain::Measure;
use sx_rules::{Hyps, Judgement, Premise, Proof, RuleSet};
use sx_term::{NoMemory, Term};

/// Puts the subject of each lowered kid that a node by the rule needs for the variable
/// that is the subject of its premise. The one refusal is out of memory.
pub(crate) fn put_subjects(
    alloc: Global,
    source: &Source,
    rule: u32,
    premises: &[Premise],
    kids: &[Box<Proof>],
    puts: &mut PutTerms,
) -> Result<(), NoMemory>
    requires near { ShallowJudgements (hypotheses source.now.given.now).judgements }
    requires ready { AreReady (bare_rules_in source.now.set.now.base)
        (hypotheses source.now.given.now)
        (needed (certificate_at (accepted source.now.set.now) rule)) (view.boxed kids.now) }
    requires many { length kids.now ≡ length (judgements_of (map premise premises.now)) }
    requires bare { (conclusion : known.Judgement)
        × AreBareSubjects (subjects_in (forms_in source.now.set.now.base)) conclusion []
        (judgements_of (map premise premises.now)) }
    ensures { OnOk result
        ((old : List Tree) → ArePut old puts.old → (more : List Tree) × ArePut more puts.new
        × ArePutBelow (subjects_in (forms_in source.now.set.now.base))
        (bare_rules_in source.now.set.now.base) (hypotheses source.now.given.now)
        (needed (certificate_at (accepted source.now.set.now) rule))
        (judgements_of (map premise premises.now)) (view.boxed kids.now)
        (length kids.now) old more) }
{
    let mut number = 0;
    for from in premises {
        match from {
            Premise::Holds(it) => {
                if source.set.is_needed(rule, number) {
                    put_subject(
                        alloc,
                        &source.set.base,
                        source.given,
                        it,
                        &kids[number],
                        puts,
                    )?;
                }
                number += 1;
            }
            Premise::Apart(_, _) => {}
        }
    }
    Ok(())
}

/// Puts the subject of what the kid derives for the variable that is the subject of the premise.
/// The one refusal is out of memory.
fn put_subject(
    alloc: Global,
    base: &RuleSet,
    given: &Hyps,
    premise: &Judgement,
    kid: &Proof,
    puts: &mut PutTerms,
) -> Result<(), NoMemory>
    requires near { ShallowJudgements (hypotheses given.now).judgements }
    requires ready { IsProofReady (bare_rules_in base.now) (hypotheses given.now)
        (view.proof kid.now) }
    ensures { OnOk result
        ((old : List Tree) → ArePut old puts.old → (more : List Tree) × ArePut more puts.new
        × IsSubjectPut (subjects_in (forms_in base.now)) (bare_rules_in base.now)
        (hypotheses given.now) (judgement premise.now) (view.proof kid.now) old more) }
{
    match premise_variable(base, premise) {
        Some(variable) => match lowered_subject(alloc, base, given, kid)? {
            Some(term) => {
                put_at(puts, variable, term);
                Ok(())
            }
            None => Ok(()),
        },
        None => Ok(()),
    }
}

/// Puts the term for the variable in the place of what is put for it;
/// a number past the variables has no place.
fn put_at(puts: &mut PutTerms, variable: u32, term: Term)
    requires { depth_of (tree term) ≤ most_depth }
    ensures { (old : List Tree) → ArePut old puts.old →
        ArePut (slice_set old variable (tree term)) puts.new }
{
    let place = variable as usize;
    if place < puts.terms.len() && place < puts.measures.len() {
        let measure = Measure {
            depth: term.depth(),
            size: term.size(),
        };
        puts.measures[place] = measure;
        puts.terms[place] = term;
    }
}
