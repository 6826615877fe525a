//! Nodes whose kids are read.

ghost use Rattle.std.specs.Prelude.{◌≡◌, [], OnOk, IfOk, length, map};
ghost use Rattle.sx_arena.specs.Arena.{tree_at, AreBelow};
ghost use Rattle.sx_expand.specs.Followed.{IsWork, bindings_of};
ghost use Rattle.sx_expand.specs.ReadDerivations.{IsDerivationRead};
ghost use Rattle.sx_expand.specs.ReadNodes.{NodeData, IsNodeIn, AreFollowed, IsNodeRead};
ghost use Rattle.sx_expand.specs.ReadNodes.{IsSubjectRead, proof_by};
ghost use Rattle.sx_expand.specs.Readers.{terms_in, IsLoweringReader, ReaderGoesOn};
ghost use Rattle.sx_expand.specs.Readings.{IsListReading, set_by};

use crate::binding::bound_numbers;
use crate::lower_node::lower_node;
use crate::node::Node;
use crate::node_binding::node_outputs;
use crate::read::Read;
use crate::reader::Reader;
use crate::reading::Reading;
use crate::work::Work;
use std::alloc::Global;
use sx_arena::rule_at;
use sx_rewrite::RewriteError;
use sx_term::NoMemory;

/// What is read of a node whose kids are read, and have the subjects with these numbers. The first
/// of its own terms that passes a limit is refused, where it is needed.
pub(crate) fn finish_node(
    alloc: Global,
    reading: &Reading,
    reader: &mut Reader,
    work: &Work,
    node: &Node,
    subjects: &[Option<usize>],
) -> Result<Read, RewriteError>
    requires reading { IsListReading reading.now }
    requires reader { IsLoweringReader (set_by reading.now).table reader.old }
    requires work { IsWork (terms_in reader.old) work.now }
    requires node { (d : NodeData) × IsNodeIn reading.now node.now d
        × IsNodeRead reading.now node.now (terms_in reader.old) work.now subjects.now d }
    ensures on { OnOk result (ReaderGoesOn (set_by reading.now).table reader.old reader.new) }
    ensures read { (d : NodeData) → IsNodeIn reading.now node.now d →
        IsNodeRead reading.now node.now (terms_in reader.old) work.now subjects.now d →
        IsDerivationRead reading.now (terms_in reader.new) node.now.is_needed d.judgement
        (proof_by node.now d) result }
{
    let outputs = node_outputs(alloc, reading, reader, work, node)?;
    match node_subject(alloc, reading, reader, work, node, subjects) {
        Ok(subject) => Ok(Read { outputs, subject }),
        Err(error) => {
            drop(outputs);
            Err(error)
        }
    }
}

/// The number of the subject of what the node is lowered to, where the node is needed.
fn node_subject(
    alloc: Global,
    reading: &Reading,
    reader: &mut Reader,
    work: &Work,
    node: &Node,
    subjects: &[Option<usize>],
) -> Result<Option<usize>, RewriteError>
    requires reading { IsListReading reading.now }
    requires reader { IsLoweringReader (set_by reading.now).table reader.old }
    requires work { IsWork (terms_in reader.old) work.now }
    requires node { (d : NodeData) × IsNodeIn reading.now node.now d
        × IsNodeRead reading.now node.now (terms_in reader.old) work.now subjects.now d }
    ensures on { OnOk result (ReaderGoesOn (set_by reading.now).table reader.old reader.new) }
    ensures read { (d : NodeData) → IsNodeIn reading.now node.now d →
        IsNodeRead reading.now node.now (terms_in reader.old) work.now subjects.now d →
        IsSubjectRead reading.now node.now (terms_in reader.new) d result }
{
    if !node.is_needed {
        return Ok(None);
    }
    let bound = node_terms(alloc, reading, reader, work, node)?;
    let subject = lower_node(alloc, reading, reader, node.number, &bound, subjects);
    drop(bound);
    subject
}

/// The numbers of the terms that are bound at a node whose premises are followed.
fn node_terms(
    alloc: Global,
    reading: &Reading,
    reader: &Reader,
    work: &Work,
    node: &Node,
) -> Result<Vec<usize>, NoMemory>
    requires reading { IsListReading reading.now }
    requires work { IsWork (terms_in reader.now) work.now }
    requires node { (d : NodeData) × IsNodeIn reading.now node.now d
        × AreFollowed reading.now d.rule d.binds []
        (bindings_of (terms_in reader.now) work.now) }
    ensures below { IfOk result (λ x. AreBelow (length (terms_in reader.now)) x.items) }
    ensures terms { IfOk result (λ x. (d : NodeData) → IsNodeIn reading.now node.now d →
        AreFollowed reading.now d.rule d.binds [] (bindings_of (terms_in reader.now) work.now) →
        map (tree_at (terms_in reader.now)) x.items ≡ d.binds) }
{
    let rule = rule_at(reading.rules, node.number);
    bound_numbers(alloc, work, rule.vars.len())
}
