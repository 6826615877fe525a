//! The subjects of lowered nodes, by number.

ghost use Rattle.std.specs.Prelude.{◌≡◌, Some, IfOk, OnOk, length, slice_get};
ghost use Rattle.sx_rules.specs.Deep.{AreShallow};
ghost use Rattle.sx_rules.specs.Discipline.{subjects_of};
ghost use Rattle.sx_rules.specs.Views.{judgement, rule as rule_of};
ghost use Rattle.sx_arena.specs.Arena.{trees, IsArena, AreBelow};
ghost use Rattle.sx_arena.specs.Grown.{Extends};
ghost use Rattle.sx_rewrite.specs.Accepted as known;
ghost use Rattle.sx_expand.specs.OwnSubjects.{own_judgement, IsSubjectMade};
ghost use Rattle.sx_expand.specs.Readings.{IsListReading, set_by, signature_by};

use crate::reading::Reading;
use std::alloc::Global;
use sx_arena::Arena;
use sx_images::filled;
use sx_rules::Rule;
use sx_term::NoMemory;

/// The number of the subject of what a node by the rule is lowered to, with the terms of these
/// numbers for the rule's variables, or None where it has none.
pub(crate) fn subject_number(
    alloc: Global,
    reading: &Reading,
    arena: &mut Arena,
    number: u32,
    rule: &Rule,
    numbers: &[usize],
) -> Result<Option<usize>, NoMemory>
    requires reading { IsListReading reading.now }
    requires arena { IsArena arena.old }
    requires below { AreBelow (length (trees arena.old)) numbers.now }
    requires shallow { AreShallow (judgement rule.now.conclusion).places }
    ensures arena { OnOk result (IsArena arena.new × Extends (trees arena.old) (trees arena.new)) }
    ensures subject { IfOk result (λ r. (x : known.Known) →
        slice_get (known.known_of (set_by reading.now)) number ≡ Some x →
        known.rule_in x ≡ rule_of rule.now →
        IsSubjectMade arena.old arena.new numbers.now
        (subjects_of (signature_by reading.now).subjects
        (own_judgement (set_by reading.now).table (signature_by reading.now).subjects x)) r) }
{
    match reading
        .listing
        .set
        .base_rules()
        .subject_of(&rule.conclusion)
    {
        Some(own) => match reading.listing.set.flat_body(number) {
            Some(body) => Ok(Some(filled(alloc, arena, body, numbers)?)),
            None => Ok(Some(filled(alloc, arena, own, numbers)?)),
        },
        None => Ok(None),
    }
}
