//! Subjects of lowered kids, put for the variables that are subjects of premises.

ghost use Rattle.std.specs.Prelude.{◌≡◌, ◌<◌, ◌≤◌, List, [], None, length, map};
ghost use Rattle.std.specs.Prelude.{slice_set, get_or};
ghost use Rattle.sx_term.specs.Tree.{Tree, depth_of};
ghost use Rattle.sx_rules.specs.Derivations as spec;
ghost use Rattle.sx_rules.specs.Rules as known;
ghost use Rattle.sx_rules.specs.Rules.{judgements_of};
ghost use Rattle.sx_rules.specs.Discipline.{AreBareSubjects};
ghost use Rattle.sx_rules.specs.Sets.{forms_in, bare_rules_in};
ghost use Rattle.sx_rules.specs.Views.{judgement, premise, subjects_in};
ghost use Rattle.sx_arena.specs.Arena.{trees, tree_at, IsArena};
ghost use Rattle.sx_rewrite.specs.AcceptedView.{accepted};
ghost use Rattle.sx_rewrite.specs.Needed.{needed};
ghost use Rattle.sx_rewrite.specs.PutSubjects.{IsSubjectPut, ArePutBelow};
ghost use Rattle.sx_rewrite.specs.Stored.{certificate_at};
ghost use Rattle.sx_expand.specs.KidSubjects.{IsKidSubject, AreKidSubjects};
ghost use Rattle.sx_expand.specs.Put.{ArePutAt};
ghost use Rattle.sx_term.specs.Limits.{most_depth};

use crate::put_numbers::PutNumbers;
use sx_arena::Arena;
use sx_plain::Measure;
use sx_rewrite::{Accepted, premise_variable};
use sx_rules::{Judgement, Premise, RuleSet};

/// Puts the subject of each lowered kid that a node by the rule needs, by its number, for the
/// variable that is the subject of its premise.
pub(crate) fn put_subjects(
    set: &Accepted,
    arena: &Arena,
    rule: u32,
    premises: &[Premise],
    subjects: &[Option<usize>],
    puts: &mut PutNumbers,
)
    requires arena { IsArena arena.now }
    requires kids { (hyps : known.Hypotheses) × (kids : spec.Proofs)
        × AreKidSubjects (subjects_in (forms_in set.now.base)) (bare_rules_in set.now.base) hyps
        (needed (certificate_at (accepted set.now) rule)) (trees arena.now) kids subjects.now }
    requires many { length subjects.now ≡ length (judgements_of (map premise premises.now)) }
    requires bare { (conclusion : known.Judgement)
        × AreBareSubjects (subjects_in (forms_in set.now.base)) conclusion []
        (judgements_of (map premise premises.now)) }
    ensures { (hyps : known.Hypotheses) (kids : spec.Proofs) →
        AreKidSubjects (subjects_in (forms_in set.now.base)) (bare_rules_in set.now.base) hyps
        (needed (certificate_at (accepted set.now) rule)) (trees arena.now) kids subjects.now →
        (old : List Tree) →
        ArePutAt (trees arena.now) old puts.old.numbers.items puts.old.measures.items →
        (more : List Tree)
        × ArePutAt (trees arena.now) more puts.new.numbers.items puts.new.measures.items
        × ArePutBelow (subjects_in (forms_in set.now.base)) (bare_rules_in set.now.base) hyps
        (needed (certificate_at (accepted set.now) rule))
        (judgements_of (map premise premises.now)) kids (length subjects.now) old more }
{
    let mut number = 0;
    for from in premises {
        match from {
            Premise::Holds(it) => {
                if set.is_needed(rule, number) {
                    put_subject(
                        set.base_rules(),
                        arena,
                        it,
                        subject_at(subjects, number),
                        puts,
                    );
                }
                number += 1;
            }
            Premise::Apart(_, _) => {}
        }
    }
}

/// The number at the place.
fn subject_at(subjects: &[Option<usize>], place: usize) -> Option<usize>
    requires { place < length subjects.now }
    ensures { result ≡ get_or subjects.now place None }
{
    subjects[place]
}

/// Puts the subject of what the kid derives, where it has one, for the variable that is the
/// subject of the premise.
fn put_subject(
    base: &RuleSet,
    arena: &Arena,
    premise: &Judgement,
    subject: Option<usize>,
    puts: &mut PutNumbers,
)
    requires arena { IsArena arena.now }
    requires kid { (hyps : known.Hypotheses) × (kid : spec.Proof)
        × IsKidSubject (subjects_in (forms_in base.now)) (bare_rules_in base.now) hyps
        (trees arena.now) kid subject }
    ensures { (hyps : known.Hypotheses) (kid : spec.Proof) →
        IsKidSubject (subjects_in (forms_in base.now)) (bare_rules_in base.now) hyps
        (trees arena.now) kid subject → (old : List Tree) →
        ArePutAt (trees arena.now) old puts.old.numbers.items puts.old.measures.items →
        (more : List Tree)
        × ArePutAt (trees arena.now) more puts.new.numbers.items puts.new.measures.items
        × IsSubjectPut (subjects_in (forms_in base.now)) (bare_rules_in base.now)
        hyps (judgement premise.now) kid old more }
{
    match premise_variable(base, premise) {
        Some(variable) => match subject {
            Some(term) => put_at(arena, puts, variable, term),
            None => {}
        },
        None => {}
    }
}

/// Puts the term with this number for the variable in the place of what is put for it;
/// a number past the variables has no place.
fn put_at(arena: &Arena, puts: &mut PutNumbers, variable: u32, term: usize)
    requires arena { IsArena arena.now }
    requires within { term < length (trees arena.now) }
    requires shallow { depth_of (tree_at (trees arena.now) term) ≤ most_depth }
    ensures { (old : List Tree) →
        ArePutAt (trees arena.now) old puts.old.numbers.items puts.old.measures.items →
        ArePutAt (trees arena.now) (slice_set old variable (tree_at (trees arena.now) term))
        puts.new.numbers.items puts.new.measures.items }
{
    let place = variable as usize;
    if place < puts.numbers.len() && place < puts.measures.len() {
        let cell = arena.cell(term);
        let measure = Measure {
            depth: cell.depth as u32,
            size: cell.size,
        };
        puts.measures[place] = measure;
        puts.numbers[place] = term;
    }
}
