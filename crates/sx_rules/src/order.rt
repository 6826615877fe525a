//! The order of a derivation.

ghost use Rattle.std.specs.Prelude.{◌≡◌, ◌≤◌, ◌++◌, IfOk};
ghost use Rattle.sx_rules.specs.Derivations.{height_of};
ghost use Rattle.sx_rules.specs.Orders.{order_of};
ghost use Rattle.sx_rules.specs.ProofView as view;
ghost use Rattle.sx_rules.specs.EntryView.{entries};
ghost use Rattle.sx_rules.specs.Limits.{most_levels};

use crate::entry::Entry;
use crate::proof::Proof;
use std::alloc::Global;
use sx_term::NoMemory;

/// The entries of the derivation in preorder: a node's own, and then those of its kids from the
/// first to the last.
pub fn preorder(alloc: Global, proof: &Proof) -> Result<Vec<Entry>, NoMemory>
    requires { height_of (view.proof proof.now) ≤ most_levels }
    ensures { IfOk result (λ list. entries list.items ≡ order_of (view.proof proof.now)) }
{
    let mut list = Vec::new(alloc);
    put_order(proof, &mut list)?;
    Ok(list)
}

/// Appends the entries of the derivation in preorder.
fn put_order(proof: &Proof, into: &mut Vec<Entry>) -> Result<(), NoMemory>
    requires { height_of (view.proof proof.now) ≤ most_levels }
    ensures { IfOk result (λ _. entries into.new.items ≡ entries into.old.items
        ++ order_of (view.proof proof.now)) }
{
    match proof {
        Proof::By {
            rule,
            binds: _,
            kids,
        } => {
            into.push(Entry::Rule(*rule))?;
            for kid in kids {
                put_order(kid, into)?;
            }
            Ok(())
        }
        Proof::Given(number) => {
            into.push(Entry::Given(*number))?;
            Ok(())
        }
    }
}
