//! Hypotheses that are read, by the numbers of their terms.

ghost use Rattle.std.specs.Prelude.{◌≡◌, true, Some, IfOk, OnOk, length, map, slice_get};
ghost use Rattle.sx_rules.specs.Discipline.{subjects_of};
ghost use Rattle.sx_rules.specs.Modes.{outputs_of};
ghost use Rattle.sx_rules.specs.Rules as known;
ghost use Rattle.sx_rules.specs.Sets.{forms_in};
ghost use Rattle.sx_rules.specs.Views.{judgement, subjects_in};
ghost use Rattle.sx_arena.specs.Arena.{trees, tree_at, IsArena, AreBelow};
ghost use Rattle.sx_arena.specs.Grown.{Extends};
ghost use Rattle.sx_expand.specs.KidSubjects.{IsSubjectAt};
ghost use Rattle.sx_expand.specs.Readers.{terms_in, IsLoweringReader, ReaderGoesOn};
ghost use Rattle.sx_expand.specs.Readings.{IsListReading, AllSmall, set_by, signature_by, hyps_by};

use crate::read::Read;
use crate::reader::Reader;
use crate::reading::Reading;
use std::alloc::Global;
use sx_arena::{Arena, enter, enter_places, roles};
use sx_rules::{Hyps, Judgement, RuleSet};
use sx_term::NoMemory;

/// What is read of the hypothesis with the number: its outputs, and its subject where that is
/// needed. Hypotheses are base, so each of their terms is its own plain image.
pub(crate) fn read_given(
    alloc: Global,
    reading: &Reading,
    reader: &mut Reader,
    number: u32,
    is_needed: bool,
) -> Result<Read, NoMemory>
    requires reading { IsListReading reading.now }
    requires reader { IsLoweringReader (set_by reading.now).table reader.old }
    requires given { (j : known.Judgement)
        × (slice_get (hyps_by reading.now).judgements number ≡ Some j) }
    ensures on { OnOk result (ReaderGoesOn (set_by reading.now).table reader.old reader.new) }
    ensures below { IfOk result (λ r. AreBelow (length (terms_in reader.new)) r.outputs.items) }
    ensures outputs { IfOk result (λ r. (j : known.Judgement) →
        slice_get (hyps_by reading.now).judgements number ≡ Some j →
        map (tree_at (terms_in reader.new)) r.outputs.items
        ≡ outputs_of (signature_by reading.now).modes j) }
    ensures subject { IfOk result (λ r. (j : known.Judgement) →
        slice_get (hyps_by reading.now).judgements number ≡ Some j → is_needed ≡ true →
        IsSubjectAt (terms_in reader.new)
        (subjects_of (signature_by reading.now).subjects j) r.subject) }
{
    let base = reading.listing.set.base_rules();
    let it = given_at(reading.given, number);
    let outputs = enter_places(
        alloc,
        &mut reader.arena,
        roles(base, it.form),
        true,
        &it.places,
    )?;
    match given_subject(alloc, base, &mut reader.arena, it, is_needed) {
        Ok(subject) => Ok(Read { outputs, subject }),
        Err(error) => {
            drop(outputs);
            Err(error)
        }
    }
}

/// The hypothesis with the number.
pub(crate) fn given_at(given: &Hyps, number: u32) -> &Judgement
    requires { (j : known.Judgement)
        × (slice_get (map judgement given.now.holds.items) number ≡ Some j) }
    ensures { slice_get (map judgement given.now.holds.items) number
        ≡ Some (judgement result.now) }
{
    &given.holds[number as usize]
}

/// The number of the subject of the hypothesis, where it has one and that is needed.
fn given_subject(
    alloc: Global,
    base: &RuleSet,
    arena: &mut Arena,
    it: &Judgement,
    is_needed: bool,
) -> Result<Option<usize>, NoMemory>
    requires arena { IsArena arena.old }
    requires small { AllSmall (judgement it.now).places }
    ensures arena { OnOk result (IsArena arena.new × Extends (trees arena.old) (trees arena.new)) }
    ensures subject { IfOk result (λ s. is_needed ≡ true → IsSubjectAt (trees arena.new)
        (subjects_of (subjects_in (forms_in base.now)) (judgement it.now)) s) }
{
    if !is_needed {
        return Ok(None);
    }
    match base.subject_of(it) {
        Some(term) => Ok(Some(enter(alloc, arena, term)?)),
        None => Ok(None),
    }
}
