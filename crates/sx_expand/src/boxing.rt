//! Derivations that are made in boxes from their lists.

ghost use Rattle.std.specs.Prelude.{◌≡◌, IfOk};
ghost use Rattle.sx_rules.specs.Deep.{AreShallow};
ghost use Rattle.sx_rules.specs.Derivations as spec;
ghost use Rattle.sx_rules.specs.Derivations.{ShallowJudgements};
ghost use Rattle.sx_rules.specs.EntryView.{entries};
ghost use Rattle.sx_rules.specs.ProofView as view;
ghost use Rattle.sx_rules.specs.Sets.{bare_rules_in};
ghost use Rattle.sx_rules.specs.Views.{hypotheses, judgement};
ghost use Rattle.sx_arena.specs.Arena.{IsArena};
ghost use Rattle.sx_expand.specs.Boxes.{HasList, CanBox, HasShallowGiven};

use crate::cursor::Cursor;
use crate::node_boxing::box_node;
use crate::origin::Origin;
use std::alloc::Global;
use sx_arena::{Arena, enter_places, roles};
use sx_rules::{Entry, Hyps, Judgement, Proof, RuleSet};
use sx_term::NoMemory;

/// The derivation of the judgement that has this list, by the rules and from the hypotheses. The
/// one refusal is out of memory.
///
/// The list and the judgement tell its terms: those of a node follow from the inputs of what it
/// derives and from the outputs of its kids, in the order of the premises.
pub fn derivation_of(
    alloc: Global,
    rules: &RuleSet,
    given: &Hyps,
    it: &Judgement,
    list: &[Entry],
) -> Result<Box<Proof>, NoMemory>
    requires given { ShallowJudgements (hypotheses given.now).judgements }
    requires places { AreShallow (judgement it.now).places }
    requires listed { (p : spec.Proof) × HasList (bare_rules_in rules.now) (hypotheses given.now)
        (judgement it.now) (entries list.now) p }
    ensures { (p : spec.Proof) → HasList (bare_rules_in rules.now) (hypotheses given.now)
        (judgement it.now) (entries list.now) p → IfOk result (λ b. view.proof b.value ≡ p) }
{
    let origin = Origin { rules, given, list };
    let mut cursor = Cursor {
        arena: Arena::new(alloc),
        next: 0,
    };
    let made = box_root(alloc, &origin, &mut cursor, it);
    drop(cursor);
    made
}

/// The derivation of the judgement that is next in the list, which is the whole.
fn box_root(
    alloc: Global,
    origin: &Origin,
    cursor: &mut Cursor,
    it: &Judgement,
) -> Result<Box<Proof>, NoMemory>
    requires shallow { HasShallowGiven origin.now }
    requires arena { IsArena cursor.old.arena }
    requires places { AreShallow (judgement it.now).places }
    requires derived { (p : spec.Proof) × CanBox origin.now cursor.old.next (judgement it.now) p }
    ensures { (p : spec.Proof) → CanBox origin.now cursor.old.next (judgement it.now) p →
        IfOk result (λ b. view.proof b.value ≡ p) }
{
    let rules = origin.rules;
    let inputs = enter_places(
        alloc,
        &mut cursor.arena,
        roles(rules, it.form),
        false,
        &it.places,
    )?;
    let made = box_node(alloc, origin, cursor, &inputs)?;
    Ok(Box::new(alloc, made.proof)?)
}
