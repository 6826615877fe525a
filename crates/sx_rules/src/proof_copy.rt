//! Copies of derivations.

ghost use Rattle.std.specs.Prelude.{◌≡◌, ◌≤◌, IfOk};
ghost use Rattle.sx_rules.specs.Derivations.{height_of, HasShallowBinds};
ghost use Rattle.sx_rules.specs.ProofView as view;
ghost use Rattle.sx_rules.specs.Limits.{most_levels};

use crate::copying::copy_terms;
use crate::proof::Proof;
use std::alloc::Global;
use sx_term::NoMemory;

/// An equal derivation. The one refusal is out of memory.
pub fn copy_proof(alloc: Global, proof: &Proof) -> Result<Box<Proof>, NoMemory>
    requires height { height_of (view.proof proof.now) ≤ most_levels }
    requires binds { HasShallowBinds (view.proof proof.now) }
    ensures { IfOk result (λ p. view.proof p.value ≡ view.proof proof.now) }
{
    match proof {
        Proof::By { rule, binds, kids } => {
            let mut copies = Vec::with_capacity(alloc, kids.len())?;
            for kid in kids {
                copies.push(copy_proof(alloc, kid)?)?;
            }
            let terms = copy_terms(alloc, binds)?;
            Ok(Box::new(
                alloc,
                Proof::By {
                    rule: *rule,
                    binds: terms,
                    kids: copies,
                },
            )?)
        }
        Proof::Given(number) => Ok(Box::new(alloc, Proof::Given(*number))?),
    }
}
