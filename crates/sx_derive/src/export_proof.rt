//! Proofs of a store as values of their own.

ghost use Rattle.std.specs.Prelude.{◌≡◌, IfOk, length};
ghost use Rattle.sx_rules.specs.ProofView.{proof};
ghost use Rattle.sx_arena.specs.Arena.{trees, IsArena};
ghost use Rattle.sx_arena.specs.Binds.{IsBinds};
ghost use Rattle.sx_derive.specs.Chains.{HeadFits, AreKids, head_proof};
ghost use Rattle.sx_derive.specs.Store.{store_envs, store_kids};

use crate::chains::Head;
use crate::store::Store;
use std::alloc::Global;
use sx_arena::export_binds;
use sx_rules::Proof;
use sx_term::NoMemory;

/// The proof that a head stands for.
pub(crate) fn export_proof(alloc: Global, store: &Store, head: Head) -> Result<Proof, NoMemory>
    requires arena { IsArena store.now.arena }
    requires binds { IsBinds (trees store.now.arena) store.now.binds }
    requires kids { AreKids (store_envs store.now) store.now.kids.items }
    requires head { HeadFits (length (store_envs store.now)) (length (store_kids store.now)) head }
    ensures { IfOk result
        (λ p. proof p ≡ head_proof (store_envs store.now) (store_kids store.now) head) }
{
    match head {
        Head::Given(number) => Ok(Proof::Given(number)),
        Head::By {
            number,
            variables,
            env,
            kids,
        } => {
            let binds = export_binds(alloc, &store.arena, &store.binds, env, variables)?;
            let mut proofs = Vec::new(alloc);
            let mut here = kids;
            while here > 0 {
                let kid = store.kids[here - 1];
                let made = export_proof(alloc, store, kid.head)?;
                proofs.push(Box::new(alloc, made)?)?;
                here = kid.before;
            }
            proofs.reverse();
            Ok(Proof::By {
                rule: number,
                binds,
                kids: proofs,
            })
        }
    }
}
