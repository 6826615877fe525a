//! What a search found, as values of its own.

ghost use Rattle.std.specs.Prelude.{◌≡◌, IfOk, length, map};
ghost use Rattle.sx_term.specs.Term.{tree};
ghost use Rattle.sx_rules.specs.ProofView.{proof};
ghost use Rattle.sx_arena.specs.Arena.{trees, IsArena, AreBelow};
ghost use Rattle.sx_arena.specs.Binds.{IsBinds};
ghost use Rattle.sx_derive.specs.Chains.{HeadFits, AreKids};
ghost use Rattle.sx_derive.specs.Handing.{answer_in};
ghost use Rattle.sx_derive.specs.Store.{store_trees, store_envs, store_kids};

use crate::chains::Head;
use crate::export_proof::export_proof;
use crate::store::Store;
use std::alloc::Global;
use sx_arena::export_all;
use sx_rules::Proof;
use sx_term::{NoMemory, Term};

/// A derivation, and the outputs of what it derives.
#[derive(Drop)]
pub struct Derived {
    pub proof: Box<Proof>,
    pub outputs: Vec<Term>,
}

/// The answer with these numbers.
pub(crate) fn export_answer(
    alloc: Global,
    store: &Store,
    head: Head,
    outputs: &[usize],
) -> Result<Derived, NoMemory>
    requires arena { IsArena store.now.arena }
    requires binds { IsBinds (trees store.now.arena) store.now.binds }
    requires kids { AreKids (store_envs store.now) store.now.kids.items }
    requires head { HeadFits (length (store_envs store.now)) (length (store_kids store.now)) head }
    requires outputs { AreBelow (length (store_trees store.now)) outputs.now }
    ensures { IfOk result (λ d. (proof d.proof.value, map tree d.outputs.items)
        ≡ answer_in store.now head outputs.now) }
{
    let made = export_proof(alloc, store, head)?;
    let outputs = export_all(alloc, &store.arena, outputs)?;
    Ok(Derived {
        proof: Box::new(alloc, made)?,
        outputs,
    })
}
