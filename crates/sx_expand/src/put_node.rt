//! What is put for the variables of a rule at a node whose kids are read.

ghost use Rattle.std.specs.Prelude.{◌≡◌, List, IfOk, OnOk, Some, length, map, slice_get};
ghost use Rattle.sx_term.specs.Tree.{Tree, forest};
ghost use Rattle.sx_rules.specs.Deep.{AreShallow};
ghost use Rattle.sx_rules.specs.Derivations as spec;
ghost use Rattle.sx_rules.specs.Rules as known;
ghost use Rattle.sx_rules.specs.Rules.{judgements_of};
ghost use Rattle.sx_rules.specs.Sets.{bare_rules_in};
ghost use Rattle.sx_plain.specs.Tables.{FitTable};
ghost use Rattle.sx_arena.specs.Arena.{tree_at, AreBelow};
ghost use Rattle.sx_rewrite.specs.Needed.{needed};
ghost use Rattle.sx_rewrite.specs.PutImages.{images_for};
ghost use Rattle.sx_rewrite.specs.PutSubjects.{IsNodeOf, ArePutBelow};
ghost use Rattle.sx_rewrite.specs.Stored.{certificate_at};
ghost use Rattle.sx_expand.specs.KidSubjects.{AreKidSubjects};
ghost use Rattle.sx_expand.specs.Put.{ArePutAt};
ghost use Rattle.sx_expand.specs.Readers.{terms_in, IsLoweringReader, ReaderGoesOn};
ghost use Rattle.sx_expand.specs.Readings.{IsListReading, set_by, signature_by};

use crate::image_numbers::image_numbers;
use crate::kid_subjects::put_subjects;
use crate::put_numbers::PutNumbers;
use crate::reader::Reader;
use crate::reading::Reading;
use std::alloc::Global;
use sx_arena::rule_at;
use sx_term::NoMemory;

/// What is put for the variables of the rule at a node to which the terms with these numbers are
/// bound, and whose lowered kids have the subjects with these numbers: the plain image of what is
/// bound, and for the subject of each premise whose kid is needed the subject of that kid.
/// The one refusal is out of memory.
pub(crate) fn put_node(
    alloc: Global,
    reading: &Reading,
    reader: &mut Reader,
    number: u32,
    binds: &[usize],
    subjects: &[Option<usize>],
) -> Result<PutNumbers, NoMemory>
    requires reading { IsListReading reading.now }
    requires reader { IsLoweringReader (set_by reading.now).table reader.old }
    requires node { IsNodeOf (bare_rules_in reading.now.rules.now)
        (signature_by reading.now).subjects number (length binds.now) (length subjects.now) }
    requires below { AreBelow (length (terms_in reader.old)) binds.now }
    requires shallow { AreShallow (map (tree_at (terms_in reader.old)) binds.now) }
    requires fit { FitTable (set_by reading.now).table
        (forest (map (tree_at (terms_in reader.old)) binds.now)) }
    requires kids { (hyps : known.Hypotheses) × (kids : spec.Proofs)
        × AreKidSubjects (signature_by reading.now).subjects (set_by reading.now).base hyps
        (needed (certificate_at (set_by reading.now) number)) (terms_in reader.old) kids
        subjects.now }
    ensures on { OnOk result (ReaderGoesOn (set_by reading.now).table reader.old reader.new) }
    ensures put { IfOk result (λ p. (x : known.Rule) →
        slice_get (bare_rules_in reading.now.rules.now) number ≡ Some x →
        (hyps : known.Hypotheses) (kids : spec.Proofs) →
        AreKidSubjects (signature_by reading.now).subjects (set_by reading.now).base hyps
        (needed (certificate_at (set_by reading.now) number)) (terms_in reader.old) kids
        subjects.now → (more : List Tree)
        × ArePutAt (terms_in reader.new) more p.numbers.items p.measures.items
        × ArePutBelow (signature_by reading.now).subjects (set_by reading.now).base hyps
        (needed (certificate_at (set_by reading.now) number)) (judgements_of x.premises) kids
        (length subjects.now) (images_for (set_by reading.now).table x.sorts
        (map (tree_at (terms_in reader.old)) binds.now)) more) }
{
    let rule = rule_at(reading.rules, number);
    let mut puts = image_numbers(
        alloc,
        reading.listing.set.plain(),
        reader,
        &rule.vars,
        binds,
    )?;
    put_subjects(
        reading.listing.set,
        &reader.arena,
        number,
        &rule.premises,
        subjects,
        &mut puts,
    );
    Ok(puts)
}
