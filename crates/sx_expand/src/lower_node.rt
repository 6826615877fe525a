//! Nodes that are lowered by the numbers of their terms.

ghost use Rattle.std.specs.Prelude.{◌≡◌, OnOk, Some, length, map, slice_get};
ghost use Rattle.sx_term.specs.Tree.{forest};
ghost use Rattle.sx_rules.specs.Deep.{AreShallow};
ghost use Rattle.sx_rules.specs.Derivations as spec;
ghost use Rattle.sx_rules.specs.Rules as known;
ghost use Rattle.sx_rules.specs.Sets.{bare_rules_in};
ghost use Rattle.sx_plain.specs.Tables.{FitTable};
ghost use Rattle.sx_arena.specs.Arena.{tree_at, AreBelow};
ghost use Rattle.sx_rewrite.specs.Accepted as stored;
ghost use Rattle.sx_rewrite.specs.Needed.{needed};
ghost use Rattle.sx_rewrite.specs.PutSubjects.{IsNodeOf};
ghost use Rattle.sx_rewrite.specs.Stored.{certificate_at};
ghost use Rattle.sx_expand.specs.KidSubjects.{AreKidSubjects};
ghost use Rattle.sx_expand.specs.LoweredNodes.{IsNodeLowered};
ghost use Rattle.sx_expand.specs.Readers.{terms_in, IsLoweringReader, ReaderGoesOn};
ghost use Rattle.sx_expand.specs.Readings.{IsListReading, set_by, signature_by};

use crate::node_limits::check_node;
use crate::put_node::put_node;
use crate::reader::Reader;
use crate::reading::Reading;
use crate::subject_number::subject_number;
use std::alloc::Global;
use sx_arena::rule_at;
use sx_rewrite::RewriteError;
use sx_term::NoMemory;

/// The number of the subject of what the node is lowered to, or None where it has none: a node by
/// the rule to which the terms with these numbers are bound, and whose lowered kids have the
/// subjects with these numbers. The first of its own terms that passes a limit is refused.
pub(crate) fn lower_node(
    alloc: Global,
    reading: &Reading,
    reader: &mut Reader,
    number: u32,
    binds: &[usize],
    subjects: &[Option<usize>],
) -> Result<Option<usize>, RewriteError>
    requires reading { IsListReading reading.now }
    requires reader { IsLoweringReader (set_by reading.now).table reader.old }
    requires node { IsNodeOf (bare_rules_in reading.now.rules.now)
        (signature_by reading.now).subjects number (length binds.now) (length subjects.now) }
    requires below { AreBelow (length (terms_in reader.old)) binds.now }
    requires shallow { AreShallow (map (tree_at (terms_in reader.old)) binds.now) }
    requires fit { FitTable (set_by reading.now).table
        (forest (map (tree_at (terms_in reader.old)) binds.now)) }
    requires kids { (hyps : known.Hypotheses) × (kids : spec.Proofs) × AreKidSubjects
        (signature_by reading.now).subjects (set_by reading.now).base hyps (needed
        (certificate_at (set_by reading.now) number)) (terms_in reader.old) kids subjects.now }
    ensures on { OnOk result (ReaderGoesOn (set_by reading.now).table reader.old reader.new) }
    ensures lowered { (x : stored.Known) →
        slice_get (stored.known_of (set_by reading.now)) number ≡ Some x →
        (hyps : known.Hypotheses) (kids : spec.Proofs) →
        AreKidSubjects (signature_by reading.now).subjects (set_by reading.now).base hyps
        (needed (certificate_at (set_by reading.now) number)) (terms_in reader.old) kids
        subjects.now → IsNodeLowered (set_by reading.now) (signature_by reading.now).subjects
        hyps (terms_in reader.new) (record {
          rule = number;
          known = x;
          binds = map (tree_at (terms_in reader.old)) binds.now;
          kids = kids;
          count = length subjects.now;
        }) result }
{
    let puts = put_node(alloc, reading, reader, number, binds, subjects)?;
    match check_node(alloc, reading.listing.set, number, &puts.measures) {
        Ok(()) => {}
        Err(error) => {
            drop(puts);
            return Err(error);
        }
    }
    let rules = reading.rules;
    rules.facts();
    let rule = rule_at(rules, number);
    let subject = subject_number(
        alloc,
        reading,
        &mut reader.arena,
        number,
        rule,
        &puts.numbers,
    );
    drop(puts);
    match subject {
        Ok(found) => Ok(found),
        Err(NoMemory::Memory) => Err(RewriteError::Memory),
    }
}
