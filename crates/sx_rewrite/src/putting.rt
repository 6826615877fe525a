//! What is put for the variables of a rule at a node whose kids are lowered.

ghost use Rattle.std.specs.Prelude.{◌≡◌, ◌≤◌, List, IfOk, length, map, Some, slice_get};
ghost use Rattle.sx_term.specs.Term.{tree};
ghost use Rattle.sx_term.specs.Tree.{Tree, greatest_depth, forest};
ghost use Rattle.sx_rules.specs.Rules as known;
ghost use Rattle.sx_rules.specs.Rules.{judgements_of};
ghost use Rattle.sx_rules.specs.Derivations.{ShallowJudgements};
ghost use Rattle.sx_rules.specs.ProofView as view;
ghost use Rattle.sx_rules.specs.Sets.{forms_in, bare_rules_in};
ghost use Rattle.sx_rules.specs.Views.{hypotheses, subjects_in};
ghost use Rattle.sx_plain.specs.Tables.{FitTable};
ghost use Rattle.sx_plain.specs.Views.{table_of};
ghost use Rattle.sx_rewrite.specs.AcceptedView.{accepted};
ghost use Rattle.sx_rewrite.specs.Needed.{needed};
ghost use Rattle.sx_rewrite.specs.Put.{ArePut};
ghost use Rattle.sx_rewrite.specs.PutImages.{images_for};
ghost use Rattle.sx_rewrite.specs.PutSubjects.{AreReady, ArePutBelow, IsNodeOf};
ghost use Rattle.sx_rewrite.specs.Stored.{certificate_at};
ghost use Rattle.sx_term.specs.Limits.{most_depth};

use crate::image_terms::image_terms;
use crate::put_subjects::put_subjects;
use crate::put_terms::PutTerms;
use crate::source::Source;
use std::alloc::Global;
use sx_rules::Proof;
use sx_term::{NoMemory, Term};

/// What is put for the variables of the rule at a node with these bindings and lowered kids: the
/// plain image of what is bound, and for the subject of each premise whose kid is needed the
/// subject of what that kid derives. The one refusal is out of memory.
pub(crate) fn put_terms(
    alloc: Global,
    source: &Source,
    rule: u32,
    binds: &[Term],
    kids: &[Box<Proof>],
) -> Result<PutTerms, NoMemory>
    requires near { ShallowJudgements (hypotheses source.now.given.now).judgements }
    requires ready { AreReady (bare_rules_in source.now.set.now.base)
        (hypotheses source.now.given.now)
        (needed (certificate_at (accepted source.now.set.now) rule)) (view.boxed kids.now) }
    requires node { IsNodeOf (bare_rules_in source.now.rules.now)
        (subjects_in (forms_in source.now.set.now.base)) rule (length binds.now)
        (length kids.now) }
    requires shallow { greatest_depth (forest (map tree binds.now)) ≤ most_depth }
    requires fit { FitTable (table_of source.now.set.now.plain) (forest (map tree binds.now)) }
    ensures { IfOk result (λ p. (x : known.Rule) →
        slice_get (bare_rules_in source.now.rules.now) rule ≡ Some x →
        (more : List Tree) × ArePut more p
        × ArePutBelow (subjects_in (forms_in source.now.set.now.base))
        (bare_rules_in source.now.set.now.base) (hypotheses source.now.given.now)
        (needed (certificate_at (accepted source.now.set.now) rule))
        (judgements_of x.premises) (view.boxed kids.now) (length kids.now)
        (images_for (table_of source.now.set.now.plain) x.sorts (map tree binds.now)) more) }
{
    match source.rules.rule(rule) {
        Some(found) => {
            let mut puts = image_terms(alloc, &source.set.plain, &found.vars, binds)?;
            put_subjects(alloc, source, rule, &found.premises, kids, &mut puts)?;
            Ok(puts)
        }
        None => unreachable!(),
    }
}
