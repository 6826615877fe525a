//! Derivations that are read from their lists, node by node, by the numbers of their terms.

ghost use Rattle.std.specs.Prelude.{◌≡◌, ◌&&◌, OnOk, length};
ghost use Rattle.sx_rules.specs.Deep.{AreShallow};
ghost use Rattle.sx_rules.specs.Derivations as spec;
ghost use Rattle.sx_rules.specs.Rules as known;
ghost use Rattle.sx_rules.specs.Views.{judgement};
ghost use Rattle.sx_arena.specs.Arena.{AreBelow};
ghost use Rattle.sx_rewrite.specs.Needed.{needed};
ghost use Rattle.sx_rewrite.specs.Stored.{certificate_at};
ghost use Rattle.sx_expand.specs.Followed.{IsWork, bindings_of};
ghost use Rattle.sx_expand.specs.ReadDerivations.{CanReadDerivation, AreInputs, IsDerivationRead};
ghost use Rattle.sx_expand.specs.ReadNodes.{NodeData, IsNodeIn, AreFollowed, AreRead, proof_by};
ghost use Rattle.sx_expand.specs.ReadNodes.{KidData, IsKidIn, IsKidDone};
ghost use Rattle.sx_expand.specs.Readers.{terms_in, IsLoweringReader, ReaderGoesOn};
ghost use Rattle.sx_expand.specs.Readings.{IsListReading, set_by};

use crate::ends::{entry_at, number_at};
use crate::finishing::finish_node;
use crate::given_reading::read_given;
use crate::kid::Kid;
use crate::node::Node;
use crate::node_binding::{begin_node, follow_kid, kid_inputs};
use crate::read::Read;
use crate::reader::Reader;
use crate::reading::Reading;
use crate::work::Work;
use std::alloc::Global;
use sx_arena::rule_at;
use sx_rewrite::RewriteError;
use sx_rules::{Entry, Premise};

/// Reads the derivation that begins with the entry at the place, by the numbers of the inputs of
/// what it derives. Where it is needed, the first term of what it is lowered to that passes a
/// limit is refused; else the one refusal is out of memory.
#[cycle(reading)]
pub(crate) fn read_node(
    alloc: Global,
    reading: &Reading,
    reader: &mut Reader,
    at: usize,
    inputs: &[usize],
    is_needed: bool,
) -> Result<Read, RewriteError>
    requires reading { IsListReading reading.now }
    requires reader { IsLoweringReader (set_by reading.now).table reader.old }
    requires below { AreBelow (length (terms_in reader.old)) inputs.now }
    requires derived { (j : known.Judgement) × (p : spec.Proof)
        × CanReadDerivation reading.now at is_needed j p
        × AreInputs reading.now (terms_in reader.old) inputs.now j }
    ensures on { OnOk result (ReaderGoesOn (set_by reading.now).table reader.old reader.new) }
    ensures read { (j : known.Judgement) (p : spec.Proof) → CanReadDerivation reading.now at
        is_needed j p →
        AreInputs reading.now (terms_in reader.old) inputs.now j →
        IsDerivationRead reading.now (terms_in reader.new) is_needed j p result }
{
    match entry_at(reading.listing.list, at) {
        Entry::Rule(number) => {
            let node = Node {
                number,
                at,
                is_needed,
            };
            read_by_rule(alloc, reading, reader, &node, inputs)
        }
        Entry::Given(number) => Ok(read_given(alloc, reading, reader, number, is_needed)?),
    }
}

/// Reads the derivation that ends with the node, by the numbers of the inputs of what it derives.
#[cycle(reading)]
fn read_by_rule(
    alloc: Global,
    reading: &Reading,
    reader: &mut Reader,
    node: &Node,
    inputs: &[usize],
) -> Result<Read, RewriteError>
    requires reading { IsListReading reading.now }
    requires reader { IsLoweringReader (set_by reading.now).table reader.old }
    requires below { AreBelow (length (terms_in reader.old)) inputs.now }
    requires node { (d : NodeData) × IsNodeIn reading.now node.now d
        × AreInputs reading.now (terms_in reader.old) inputs.now d.judgement }
    ensures on { OnOk result (ReaderGoesOn (set_by reading.now).table reader.old reader.new) }
    ensures read { (d : NodeData) → IsNodeIn reading.now node.now d →
        AreInputs reading.now (terms_in reader.old) inputs.now d.judgement →
        IsDerivationRead reading.now (terms_in reader.new) node.now.is_needed d.judgement
        (proof_by node.now d) result }
{
    let mut work = begin_node(alloc, reading, reader, node, inputs)?;
    match read_kids(alloc, reading, reader, &mut work, node) {
        Ok(subjects) => {
            let read = finish_node(alloc, reading, reader, &work, node, &subjects);
            drop(subjects);
            drop(work);
            read
        }
        Err(error) => {
            drop(work);
            Err(error)
        }
    }
}

/// Reads the kids of the node one after another, and binds what their outputs are: for each the
/// number of the subject of what it is lowered to, where it is needed.
#[cycle(reading)]
fn read_kids(
    alloc: Global,
    reading: &Reading,
    reader: &mut Reader,
    work: &mut Work,
    node: &Node,
) -> Result<Vec<Option<usize>>, RewriteError>
    requires reading { IsListReading reading.now }
    requires reader { IsLoweringReader (set_by reading.now).table reader.old }
    requires work { IsWork (terms_in reader.old) work.old }
    requires node { (d : NodeData) × IsNodeIn reading.now node.now d
        × AreFollowed reading.now d.rule d.binds d.rule.premises
        (bindings_of (terms_in reader.old) work.old) }
    ensures on { OnOk result (ReaderGoesOn (set_by reading.now).table reader.old reader.new) }
    ensures work { OnOk result (IsWork (terms_in reader.new) work.new) }
    ensures read { (d : NodeData) → IsNodeIn reading.now node.now d →
        AreFollowed reading.now d.rule d.binds d.rule.premises
        (bindings_of (terms_in reader.old) work.old) →
        AreRead reading.now node.now (terms_in reader.new) work.new d result }
{
    let rules = reading.rules;
    rules.facts();
    let rule = rule_at(rules, node.number);
    let mut subjects = Vec::new(alloc);
    let mut at = node.at + 1;
    for premise in &rule.premises {
        match premise {
            Premise::Holds(it) => {
                let kid = Kid {
                    premise: it,
                    at,
                    is_needed: is_kid_needed(reading, node, subjects.len()),
                };
                subjects.push(read_kid(alloc, reading, reader, work, &kid)?)?;
                at = number_at(reading.listing.ends, at);
            }
            Premise::Apart(_, _) => {}
        }
    }
    Ok(subjects)
}

/// Reads the kid and binds what its outputs are: the number of the subject of what it is lowered
/// to, where it is needed.
#[cycle(reading)]
fn read_kid(
    alloc: Global,
    reading: &Reading,
    reader: &mut Reader,
    work: &mut Work,
    kid: &Kid,
) -> Result<Option<usize>, RewriteError>
    requires reading { IsListReading reading.now }
    requires reader { IsLoweringReader (set_by reading.now).table reader.old }
    requires work { IsWork (terms_in reader.old) work.old }
    requires shallow { AreShallow (judgement kid.now.premise.now).places }
    requires kid { (d : KidData)
        × IsKidIn reading.now kid.now (bindings_of (terms_in reader.old) work.old) d }
    ensures on { OnOk result (ReaderGoesOn (set_by reading.now).table reader.old reader.new) }
    ensures work { OnOk result (IsWork (terms_in reader.new) work.new) }
    ensures read { (d : KidData) →
        IsKidIn reading.now kid.now (bindings_of (terms_in reader.old) work.old) d →
        IsKidDone reading.now kid.now (terms_in reader.new) work.new d result }
{
    let inputs = kid_inputs(alloc, reading, reader, work, kid)?;
    let read = read_node(alloc, reading, reader, kid.at, &inputs, kid.is_needed)?;
    follow_kid(reading, reader, work, kid, &read.outputs)?;
    Ok(read.subject)
}

/// Whether what the kid with the number is lowered to is needed.
fn is_kid_needed(reading: &Reading, node: &Node, kid: usize) -> bool
    requires { IsListReading reading.now }
    ensures { result ≡ node.now.is_needed
        && needed (certificate_at (set_by reading.now) node.now.number) kid }
{
    node.is_needed && reading.listing.set.is_needed(node.number, kid)
}
