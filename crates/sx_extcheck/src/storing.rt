//! What is stored of a rule.

ghost use Rattle.std.specs.Prelude.{◌≡◌, ◌∷◌, [], IfOk, MatchOption, option_map};
ghost use Rattle.std.specs.List.{AllByRecursion};
ghost use Rattle.sx_term.specs.Term.{tree};
ghost use Rattle.sx_term.specs.Tree.{Tree};
ghost use Rattle.sx_rules.specs.Deep.{AreShallow};
ghost use Rattle.sx_rules.specs.Derivations as spec;
ghost use Rattle.sx_rules.specs.Derivations.{ShallowJudgements};
ghost use Rattle.sx_rules.specs.Discipline.{subjects_of};
ghost use Rattle.sx_rules.specs.EntryView.{entries};
ghost use Rattle.sx_rules.specs.ProofView as view;
ghost use Rattle.sx_rules.specs.Sets.{bare_rules_in, forms_in};
ghost use Rattle.sx_rules.specs.Views.{hypotheses, judgement, subjects_in};
ghost use Rattle.sx_plain.specs.Plain.{image};
ghost use Rattle.sx_plain.specs.Views.{table_of};
ghost use Rattle.sx_rewrite.specs.PlainRules.{HasImage};
ghost use Rattle.sx_expand.specs.Boxes.{HasList};
ghost use Rattle.sx_extcheck.specs.FlatTerms.{listed_term};

use std::alloc::Global;
use sx_expand::derivation_of;
use sx_plain::PlainTable;
use sx_rewrite::{Flat, plain_term};
use sx_rules::{Entry, Hyps, Judgement, Proof, RuleSet};
use sx_term::{NoMemory, Term};

/// The plain image of the body, where there is one, with the certificate. The one refusal is want
/// of memory.
pub(crate) fn with_image(
    alloc: Global,
    plain: &PlainTable,
    body: &Option<Term>,
    proof: Box<Proof>,
) -> Result<Flat, NoMemory>
    requires { AllByRecursion (HasImage (table_of plain.now))
        (listed_term (option_map tree body.now)) }
    ensures { IfOk result (λ f. (option_map tree f.subject
        ≡ option_map (image (table_of plain.now)) (option_map tree body.now))
        × (view.proof f.proof.value ≡ view.proof proof.value)) }
{
    match body {
        Some(term) => match plain_term(alloc, plain, term) {
            Ok(image) => Ok(Flat {
                subject: Some(image),
                proof,
            }),
            Err(e) => {
                drop(proof);
                Err(e)
            }
        },
        None => Ok(Flat {
            subject: None,
            proof,
        }),
    }
}

/// The derivation of the judgement with this list, in boxes, and the subject of the judgement. The
/// one refusal is out of memory.
pub(crate) fn with_certificate(
    alloc: Global,
    set: &RuleSet,
    given: &Hyps,
    it: &Judgement,
    list: &[Entry],
) -> Result<Flat, NoMemory>
    requires given { ShallowJudgements (hypotheses given.now).judgements }
    requires places { AreShallow (judgement it.now).places }
    requires subject { (t : Tree)
        × (subjects_of (subjects_in (forms_in set.now)) (judgement it.now) ≡ t ∷ []) }
    requires listed { (p : spec.Proof) × HasList (bare_rules_in set.now) (hypotheses given.now)
        (judgement it.now) (entries list.now) p }
    ensures { (p : spec.Proof) → HasList (bare_rules_in set.now) (hypotheses given.now)
        (judgement it.now) (entries list.now) p → IfOk result (λ f. MatchOption f.subject ⊥
        (λ t. subjects_of (subjects_in (forms_in set.now)) (judgement it.now) ≡ tree t ∷ [])
        × (view.proof f.proof.value ≡ p)) }
{
    let proof = derivation_of(alloc, set, given, it, list)?;
    match subject_copy(alloc, set, it) {
        Ok(subject) => Ok(Flat {
            subject: Some(subject),
            proof,
        }),
        Err(e) => {
            drop(proof);
            Err(e)
        }
    }
}

/// An equal term to the subject of the judgement. The one refusal is out of memory.
fn subject_copy(alloc: Global, set: &RuleSet, from: &Judgement) -> Result<Term, NoMemory>
    requires places { AreShallow (judgement from.now).places }
    requires subject { (t : Tree)
        × (subjects_of (subjects_in (forms_in set.now)) (judgement from.now) ≡ t ∷ []) }
    ensures { IfOk result
        (λ t. subjects_of (subjects_in (forms_in set.now)) (judgement from.now) ≡ tree t ∷ []) }
{
    match set.subject_of(from) {
        Some(term) => term.copy(alloc),
        None => unreachable!(),
    }
}
