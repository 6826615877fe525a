//! What is bound at a node whose derivation is made in boxes, and the node when its kids are made.

ghost use Rattle.std.specs.Prelude.{◌≡◌, ℕ, [], Some, IfOk, OnOk, length, map, slice_get};
ghost use Rattle.sx_term.specs.Term.{tree};
ghost use Rattle.sx_rules.specs.Derivations.{by, given as hypothesis};
ghost use Rattle.sx_rules.specs.Modes.{outputs_of};
ghost use Rattle.sx_rules.specs.ProofView.{boxed};
ghost use Rattle.sx_rules.specs.Rules as known;
ghost use Rattle.sx_arena.specs.Arena.{trees, tree_at, IsArena, AreBelow};
ghost use Rattle.sx_arena.specs.Grown.{Extends};
ghost use Rattle.sx_expand.specs.Boxes.{IsBoxNode, IsFollowed, HaveInputs, IsBoxed};
ghost use Rattle.sx_expand.specs.Boxes.{HasShallowGiven, hyps_from, modes_from};
ghost use Rattle.sx_expand.specs.Followed.{IsWork, bindings_of};
ghost use Rattle.sx_expand.specs.ReadNodes.{NodeData};

use crate::binding::{input_work, places_under};
use crate::given_reading::given_at;
use crate::made::Made;
use crate::node_ends::NodeEnds;
use crate::origin::Origin;
use crate::work::Work;
use std::alloc::Global;
use sx_arena::{Arena, enter_places, export_binds, roles, rule_at};
use sx_rules::Proof;
use sx_term::NoMemory;

/// What the inputs of a node by the rule bind, which are the terms with these numbers.
pub(crate) fn begin_box(
    alloc: Global,
    origin: &Origin,
    arena: &Arena,
    number: u32,
    inputs: &[usize],
) -> Result<Work, NoMemory>
    requires arena { IsArena arena.now }
    requires below { AreBelow (length (trees arena.now)) inputs.now }
    requires node { (at : ℕ) × (d : NodeData) × IsBoxNode origin.now at number d
        × HaveInputs origin.now (trees arena.now) inputs.now d.judgement }
    ensures work { IfOk result (IsWork (trees arena.now)) }
    ensures followed { IfOk result (λ w. (at : ℕ) (d : NodeData) →
        IsBoxNode origin.now at number d →
        HaveInputs origin.now (trees arena.now) inputs.now d.judgement →
        IsFollowed origin.now d.rule d.binds d.rule.premises
        (bindings_of (trees arena.now) w)) }
{
    let rules = origin.rules;
    rules.facts();
    let rule = rule_at(rules, number);
    input_work(alloc, rules, arena, rule, inputs)
}

/// The hypothesis with the number as a derivation, and the numbers of its outputs.
pub(crate) fn box_given(
    alloc: Global,
    origin: &Origin,
    arena: &mut Arena,
    number: u32,
) -> Result<Made, NoMemory>
    requires shallow { HasShallowGiven origin.now }
    requires arena { IsArena arena.old }
    requires given { (j : known.Judgement)
        × (slice_get (hyps_from origin.now).judgements number ≡ Some j) }
    ensures arena { OnOk result (IsArena arena.new × Extends (trees arena.old) (trees arena.new)) }
    ensures made { IfOk result (λ m. (j : known.Judgement) →
        slice_get (hyps_from origin.now).judgements number ≡ Some j →
        IsBoxed origin.now (trees arena.new) j (hypothesis number) m) }
{
    let it = given_at(origin.given, number);
    let outputs = enter_places(alloc, arena, roles(origin.rules, it.form), true, &it.places)?;
    Ok(Made {
        proof: Proof::Given(number),
        outputs,
    })
}

/// The terms that are bound at a node by the rule whose premises are followed, and the numbers of
/// the outputs of what it derives.
fn node_ends(
    alloc: Global,
    origin: &Origin,
    arena: &mut Arena,
    work: &Work,
    number: u32,
) -> Result<NodeEnds, NoMemory>
    requires arena { IsArena arena.old }
    requires work { IsWork (trees arena.old) work.now }
    requires node { (at : ℕ) × (d : NodeData) × IsBoxNode origin.now at number d }
    ensures arena { OnOk result (IsArena arena.new × Extends (trees arena.old) (trees arena.new)) }
    ensures below { IfOk result (λ x. AreBelow (length (trees arena.new)) x.outputs.items) }
    ensures ends { IfOk result (λ x. (at : ℕ) (d : NodeData) → IsBoxNode origin.now at number d →
        IsFollowed origin.now d.rule d.binds [] (bindings_of (trees arena.old) work.now) →
        (map tree x.binds.items ≡ d.binds)
        × (map (tree_at (trees arena.new)) x.outputs.items
        ≡ outputs_of (modes_from origin.now) d.judgement)) }
{
    let rules = origin.rules;
    rules.facts();
    let rule = rule_at(rules, number);
    let binds = export_binds(alloc, arena, &work.binds, work.env, rule.vars.len())?;
    match places_under(alloc, rules, arena, work, &rule.conclusion, true) {
        Ok(outputs) => Ok(NodeEnds { binds, outputs }),
        Err(error) => {
            drop(binds);
            Err(error)
        }
    }
}

/// The derivation that ends with a node by the rule, over these kids, and the numbers of the
/// outputs of what it derives.
pub(crate) fn close_node(
    alloc: Global,
    origin: &Origin,
    arena: &mut Arena,
    work: &Work,
    number: u32,
    kids: Vec<Box<Proof>>,
) -> Result<Made, NoMemory>
    requires arena { IsArena arena.old }
    requires work { IsWork (trees arena.old) work.now }
    requires node { (at : ℕ) × (d : NodeData) × IsBoxNode origin.now at number d }
    ensures arena { OnOk result (IsArena arena.new × Extends (trees arena.old) (trees arena.new)) }
    ensures made { IfOk result (λ m. (at : ℕ) (d : NodeData) → IsBoxNode origin.now at number d →
        IsFollowed origin.now d.rule d.binds [] (bindings_of (trees arena.old) work.now) →
        boxed kids.items ≡ d.kids →
        IsBoxed origin.now (trees arena.new) d.judgement (by number d.binds d.kids) m) }
{
    match node_ends(alloc, origin, arena, work, number) {
        Ok(NodeEnds { binds, outputs }) => Ok(Made {
            proof: Proof::By {
                rule: number,
                binds,
                kids,
            },
            outputs,
        }),
        Err(error) => {
            drop(kids);
            Err(error)
        }
    }
}
