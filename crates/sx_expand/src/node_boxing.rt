//! Derivations that are made in boxes from their lists, node by node.

ghost use Rattle.std.specs.Prelude.{◌≡◌, ◌+◌, [], IfOk, OnOk, length};
ghost use Rattle.sx_rules.specs.Deep.{AreShallow};
ghost use Rattle.sx_rules.specs.Derivations as spec;
ghost use Rattle.sx_rules.specs.Derivations.{by, nodes_of, nodes_of_all};
ghost use Rattle.sx_rules.specs.ProofView as view;
ghost use Rattle.sx_rules.specs.Rules as known;
ghost use Rattle.sx_rules.specs.Views.{judgement};
ghost use Rattle.sx_arena.specs.Arena.{IsArena, AreBelow};
ghost use Rattle.sx_expand.specs.Boxes.{CanBox, HaveInputs, IsBoxed, IsBoxNode, IsFollowed};
ghost use Rattle.sx_expand.specs.Boxes.{IsBoxKid, HasShallowGiven, Advances, cursor_terms};
ghost use Rattle.sx_expand.specs.Followed.{IsWork, bindings_of};
ghost use Rattle.sx_expand.specs.ReadNodes.{NodeData, KidData};

use crate::binding::{places_under, take_outputs};
use crate::box_binding::{begin_box, box_given, close_node};
use crate::cursor::Cursor;
use crate::ends::entry_at;
use crate::made::Made;
use crate::origin::Origin;
use crate::work::Work;
use std::alloc::Global;
use sx_arena::rule_at;
use sx_rules::{Entry, Judgement, Premise, Proof};
use sx_term::NoMemory;

/// Makes the derivation whose entries are next in the list, by the numbers of the inputs of what
/// it derives. The one refusal is out of memory.
#[cycle(boxing)]
pub(crate) fn box_node(
    alloc: Global,
    origin: &Origin,
    cursor: &mut Cursor,
    inputs: &[usize],
) -> Result<Made, NoMemory>
    requires shallow { HasShallowGiven origin.now }
    requires arena { IsArena cursor.old.arena }
    requires below { AreBelow (length (cursor_terms cursor.old)) inputs.now }
    requires derived { (j : known.Judgement) × (p : spec.Proof)
        × CanBox origin.now cursor.old.next j p
        × HaveInputs origin.now (cursor_terms cursor.old) inputs.now j }
    ensures on { OnOk result (Advances cursor.old cursor.new) }
    ensures made { IfOk result (λ m. (j : known.Judgement) (p : spec.Proof) →
        CanBox origin.now cursor.old.next j p →
        HaveInputs origin.now (cursor_terms cursor.old) inputs.now j →
        IsBoxed origin.now (cursor_terms cursor.new) j p m
        × (cursor.new.next ≡ cursor.old.next + nodes_of p)) }
{
    let entry = entry_at(origin.list, cursor.next);
    cursor.next += 1;
    match entry {
        Entry::Rule(number) => box_by_rule(alloc, origin, cursor, number, inputs),
        Entry::Given(number) => box_given(alloc, origin, &mut cursor.arena, number),
    }
}

/// Makes the derivation that ends with a node by the rule, whose kids are next in the list, by the
/// numbers of the inputs of what it derives.
#[cycle(boxing)]
fn box_by_rule(
    alloc: Global,
    origin: &Origin,
    cursor: &mut Cursor,
    number: u32,
    inputs: &[usize],
) -> Result<Made, NoMemory>
    requires shallow { HasShallowGiven origin.now }
    requires arena { IsArena cursor.old.arena }
    requires below { AreBelow (length (cursor_terms cursor.old)) inputs.now }
    requires node { (d : NodeData) × IsBoxNode origin.now cursor.old.next number d
        × HaveInputs origin.now (cursor_terms cursor.old) inputs.now d.judgement }
    ensures on { OnOk result (Advances cursor.old cursor.new) }
    ensures made { IfOk result (λ m. (d : NodeData) →
        IsBoxNode origin.now cursor.old.next number d →
        HaveInputs origin.now (cursor_terms cursor.old) inputs.now d.judgement →
        IsBoxed origin.now (cursor_terms cursor.new) d.judgement (by number d.binds d.kids) m
        × (cursor.new.next ≡ cursor.old.next + nodes_of_all d.kids)) }
{
    let mut work = begin_box(alloc, origin, &cursor.arena, number, inputs)?;
    match box_kids(alloc, origin, cursor, &mut work, number) {
        Ok(kids) => {
            let made = close_node(alloc, origin, &mut cursor.arena, &work, number, kids);
            drop(work);
            made
        }
        Err(error) => {
            drop(work);
            Err(error)
        }
    }
}

/// Makes the kids of a node by the rule one after another, and binds what their outputs are.
#[cycle(boxing)]
fn box_kids(
    alloc: Global,
    origin: &Origin,
    cursor: &mut Cursor,
    work: &mut Work,
    number: u32,
) -> Result<Vec<Box<Proof>>, NoMemory>
    requires shallow { HasShallowGiven origin.now }
    requires arena { IsArena cursor.old.arena }
    requires work { IsWork (cursor_terms cursor.old) work.old }
    requires node { (d : NodeData) × IsBoxNode origin.now cursor.old.next number d
        × IsFollowed origin.now d.rule d.binds d.rule.premises
        (bindings_of (cursor_terms cursor.old) work.old) }
    ensures on { OnOk result (Advances cursor.old cursor.new) }
    ensures work { OnOk result (IsWork (cursor_terms cursor.new) work.new) }
    ensures made { IfOk result (λ kids. (d : NodeData) →
        IsBoxNode origin.now cursor.old.next number d →
        IsFollowed origin.now d.rule d.binds d.rule.premises
        (bindings_of (cursor_terms cursor.old) work.old) →
        (view.boxed kids.items ≡ d.kids)
        × (cursor.new.next ≡ cursor.old.next + nodes_of_all d.kids)
        × IsFollowed origin.now d.rule d.binds []
        (bindings_of (cursor_terms cursor.new) work.new)) }
{
    let rules = origin.rules;
    rules.facts();
    let rule = rule_at(rules, number);
    let mut kids = Vec::new(alloc);
    for premise in &rule.premises {
        match premise {
            Premise::Holds(it) => kids.push(box_kid(alloc, origin, cursor, work, it)?)?,
            Premise::Apart(_, _) => {}
        }
    }
    Ok(kids)
}

/// Makes the kid for the premise, which is next in the list, and binds what its outputs are.
#[cycle(boxing)]
fn box_kid(
    alloc: Global,
    origin: &Origin,
    cursor: &mut Cursor,
    work: &mut Work,
    premise: &Judgement,
) -> Result<Box<Proof>, NoMemory>
    requires shallow { HasShallowGiven origin.now }
    requires arena { IsArena cursor.old.arena }
    requires work { IsWork (cursor_terms cursor.old) work.old }
    requires places { AreShallow (judgement premise.now).places }
    requires kid { (d : KidData) × IsBoxKid origin.now cursor.old.next premise.now
        (bindings_of (cursor_terms cursor.old) work.old) d }
    ensures on { OnOk result (Advances cursor.old cursor.new) }
    ensures work { OnOk result (IsWork (cursor_terms cursor.new) work.new) }
    ensures made { IfOk result (λ b. (d : KidData) →
        IsBoxKid origin.now cursor.old.next premise.now
        (bindings_of (cursor_terms cursor.old) work.old) d →
        (view.proof b.value ≡ d.proof)
        × (cursor.new.next ≡ cursor.old.next + nodes_of d.proof)
        × IsFollowed origin.now d.rule d.binds d.rest
        (bindings_of (cursor_terms cursor.new) work.new)) }
{
    let rules = origin.rules;
    let inputs = places_under(alloc, rules, &mut cursor.arena, work, premise, false)?;
    let made = box_node(alloc, origin, cursor, &inputs)?;
    take_outputs(rules, &cursor.arena, work, premise, &made.outputs)?;
    Ok(Box::new(alloc, made.proof)?)
}
