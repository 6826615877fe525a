//! Lists of proofs of a store.

ghost use Rattle.std.specs.Prelude.{◌≡◌, ◌≤◌, ◌++◌, IfOk, length};
ghost use Rattle.sx_rules.specs.EntryView.{entries};
ghost use Rattle.sx_rules.specs.Orders.{order_of};
ghost use Rattle.sx_arena.specs.Arena.{trees, IsArena, AreBelow};
ghost use Rattle.sx_arena.specs.Binds.{IsBinds};
ghost use Rattle.sx_derive.specs.Chains.{HeadFits, AreKids, head_proof};
ghost use Rattle.sx_derive.specs.Handing.{answer_in};
ghost use Rattle.sx_derive.specs.Listing.{AreHeads, Lists};
ghost use Rattle.sx_derive.specs.Store.{store_trees, store_envs, store_kids};

use crate::chains::Head;
use crate::listed::Listed;
use crate::store::Store;
use std::alloc::Global;
use sx_arena::export_all;
use sx_rules::Entry;
use sx_term::NoMemory;

/// The proofs of a chain from the first to the last.
fn heads_of(alloc: Global, store: &Store, kids: usize) -> Result<Vec<Head>, NoMemory>
    requires kids { AreKids (store_envs store.now) store.now.kids.items }
    requires within { kids ≤ length (store_kids store.now) }
    ensures { IfOk result
        (λ heads. AreHeads (store_envs store.now) (store_kids store.now) kids heads.items) }
{
    let mut heads = Vec::new(alloc);
    let mut here = kids;
    while here > 0 {
        let kid = store.kids[here - 1];
        heads.push(kid.head)?;
        here = kid.before;
    }
    heads.reverse();
    Ok(heads)
}

/// Appends the entries of the proof that a head stands for, in preorder.
fn put_list(alloc: Global, store: &Store, head: Head, into: &mut Vec<Entry>) -> Result<(), NoMemory>
    requires kids { AreKids (store_envs store.now) store.now.kids.items }
    requires head { HeadFits (length (store_envs store.now)) (length (store_kids store.now)) head }
    ensures { IfOk result (λ _. entries into.new.items ≡ entries into.old.items
        ++ order_of (head_proof (store_envs store.now) (store_kids store.now) head)) }
{
    match head {
        Head::Given(number) => {
            into.push(Entry::Given(number))?;
            Ok(())
        }
        Head::By {
            number,
            variables: _,
            env: _,
            kids,
        } => {
            into.push(Entry::Rule(number))?;
            let heads = heads_of(alloc, store, kids)?;
            for kid in &heads {
                put_list(alloc, store, *kid, into)?;
            }
            Ok(())
        }
    }
}

/// The list of the answer with these numbers.
pub(crate) fn list_answer(
    alloc: Global,
    store: &Store,
    head: Head,
    outputs: &[usize],
) -> Result<Listed, NoMemory>
    requires arena { IsArena store.now.arena }
    requires binds { IsBinds (trees store.now.arena) store.now.binds }
    requires kids { AreKids (store_envs store.now) store.now.kids.items }
    requires head { HeadFits (length (store_envs store.now)) (length (store_kids store.now)) head }
    requires outputs { AreBelow (length (store_trees store.now)) outputs.now }
    ensures { IfOk result (λ l. Lists l (answer_in store.now head outputs.now)) }
{
    let mut entries = Vec::new(alloc);
    put_list(alloc, store, head, &mut entries)?;
    let outputs = export_all(alloc, &store.arena, outputs)?;
    Ok(Listed { entries, outputs })
}
