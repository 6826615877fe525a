//! The bindings of a node, from the inputs of its conclusion over the outputs of its kids to its
//! own outputs.

ghost use Rattle.std.specs.Prelude.{◌≡◌, [], IfOk, OnOk, length, map};
ghost use Rattle.sx_rules.specs.Deep.{AreShallow};
ghost use Rattle.sx_rules.specs.Instances.{bound_by};
ghost use Rattle.sx_rules.specs.Modes.{outputs_of};
ghost use Rattle.sx_rules.specs.Rules.{judgement_instance};
ghost use Rattle.sx_rules.specs.Views.{judgement};
ghost use Rattle.sx_arena.specs.Arena.{tree_at, AreBelow};
ghost use Rattle.sx_expand.specs.Followed.{IsWork, bindings_of};
ghost use Rattle.sx_expand.specs.ReadDerivations.{AreInputs};
ghost use Rattle.sx_expand.specs.ReadNodes.{NodeData, IsNodeIn, AreFollowed, KidData, IsKidIn};
ghost use Rattle.sx_expand.specs.Readers.{terms_in, IsLoweringReader, ReaderGoesOn};
ghost use Rattle.sx_expand.specs.Readings.{IsListReading, set_by, signature_by};

use crate::binding::{input_work, places_under, take_outputs};
use crate::kid::Kid;
use crate::node::Node;
use crate::reader::Reader;
use crate::reading::Reading;
use crate::work::Work;
use std::alloc::Global;
use sx_arena::rule_at;
use sx_term::NoMemory;

/// What the inputs of a node bind, which are the terms with these numbers.
pub(crate) fn begin_node(
    alloc: Global,
    reading: &Reading,
    reader: &Reader,
    node: &Node,
    inputs: &[usize],
) -> Result<Work, NoMemory>
    requires reading { IsListReading reading.now }
    requires reader { IsLoweringReader (set_by reading.now).table reader.now }
    requires below { AreBelow (length (terms_in reader.now)) inputs.now }
    requires node { (d : NodeData) × IsNodeIn reading.now node.now d
        × AreInputs reading.now (terms_in reader.now) inputs.now d.judgement }
    ensures work { IfOk result (IsWork (terms_in reader.now)) }
    ensures followed { IfOk result (λ w. (d : NodeData) → IsNodeIn reading.now node.now d →
        AreInputs reading.now (terms_in reader.now) inputs.now d.judgement →
        AreFollowed reading.now d.rule d.binds d.rule.premises
        (bindings_of (terms_in reader.now) w)) }
{
    let rules = reading.rules;
    rules.facts();
    let rule = rule_at(rules, node.number);
    input_work(alloc, rules, &reader.arena, rule, inputs)
}

/// The numbers of the inputs of what the kid derives.
pub(crate) fn kid_inputs(
    alloc: Global,
    reading: &Reading,
    reader: &mut Reader,
    work: &Work,
    kid: &Kid,
) -> Result<Vec<usize>, NoMemory>
    requires reading { IsListReading reading.now }
    requires reader { IsLoweringReader (set_by reading.now).table reader.old }
    requires work { IsWork (terms_in reader.old) work.now }
    requires shallow { AreShallow (judgement kid.now.premise.now).places }
    ensures on { OnOk result (ReaderGoesOn (set_by reading.now).table reader.old reader.new) }
    ensures below { IfOk result (λ x. AreBelow (length (terms_in reader.new)) x.items) }
    ensures inputs { IfOk result (λ x. (d : KidData) →
        IsKidIn reading.now kid.now (bindings_of (terms_in reader.old) work.now) d →
        AreInputs reading.now (terms_in reader.new) x.items
        (judgement_instance (bound_by d.binds) (judgement kid.now.premise.now))) }
{
    places_under(
        alloc,
        reading.rules,
        &mut reader.arena,
        work,
        kid.premise,
        false,
    )
}

/// Binds what the outputs of the kid are, which are the terms with these numbers.
pub(crate) fn follow_kid(
    reading: &Reading,
    reader: &Reader,
    work: &mut Work,
    kid: &Kid,
    outputs: &[usize],
) -> Result<(), NoMemory>
    requires reading { IsListReading reading.now }
    requires reader { IsLoweringReader (set_by reading.now).table reader.now }
    requires work { IsWork (terms_in reader.now) work.old }
    requires shallow { AreShallow (judgement kid.now.premise.now).places }
    requires below { AreBelow (length (terms_in reader.now)) outputs.now }
    requires kid { (d : KidData)
        × IsKidIn reading.now kid.now (bindings_of (terms_in reader.now) work.old) d
        × (map (tree_at (terms_in reader.now)) outputs.now
        ≡ outputs_of (signature_by reading.now).modes
        (judgement_instance (bound_by d.binds) (judgement kid.now.premise.now))) }
    ensures work { OnOk result (IsWork (terms_in reader.now) work.new) }
    ensures followed { OnOk result ((d : KidData) →
        IsKidIn reading.now kid.now (bindings_of (terms_in reader.now) work.old) d →
        (map (tree_at (terms_in reader.now)) outputs.now
        ≡ outputs_of (signature_by reading.now).modes
        (judgement_instance (bound_by d.binds) (judgement kid.now.premise.now))) →
        AreFollowed reading.now d.rule d.binds d.rest
        (bindings_of (terms_in reader.now) work.new)) }
{
    take_outputs(reading.rules, &reader.arena, work, kid.premise, outputs)
}

/// The numbers of the outputs of a node whose premises are followed.
pub(crate) fn node_outputs(
    alloc: Global,
    reading: &Reading,
    reader: &mut Reader,
    work: &Work,
    node: &Node,
) -> Result<Vec<usize>, NoMemory>
    requires reading { IsListReading reading.now }
    requires reader { IsLoweringReader (set_by reading.now).table reader.old }
    requires work { IsWork (terms_in reader.old) work.now }
    requires node { (d : NodeData) × IsNodeIn reading.now node.now d }
    ensures on { OnOk result (ReaderGoesOn (set_by reading.now).table reader.old reader.new) }
    ensures below { IfOk result (λ x. AreBelow (length (terms_in reader.new)) x.items) }
    ensures outputs { IfOk result (λ x. (d : NodeData) → IsNodeIn reading.now node.now d →
        AreFollowed reading.now d.rule d.binds [] (bindings_of (terms_in reader.old) work.now) →
        map (tree_at (terms_in reader.new)) x.items
        ≡ outputs_of (signature_by reading.now).modes d.judgement) }
{
    let rules = reading.rules;
    rules.facts();
    let rule = rule_at(rules, node.number);
    places_under(
        alloc,
        rules,
        &mut reader.arena,
        work,
        &rule.conclusion,
        true,
    )
}
