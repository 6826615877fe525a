//! Derivations in the place of givens.

ghost use Rattle.std.specs.Prelude.{◌≡◌, ◌+◌, ◌<◌, ◌≤◌, length, drop};
ghost use Rattle.sx_rules.specs.Derivations as spec;
ghost use Rattle.sx_rules.specs.ProofView as view;
ghost use Rattle.sx_rewrite.specs.Givens.{givens_of, givens_of_all, CountUpFrom};
ghost use Rattle.sx_rules.specs.Limits.{most_levels};

use std::mem;
use sx_rules::Proof;

/// The body with kid i in the place of its given i, where its givens in preorder are 0, 1 and so
/// on, as many as kids. Kids are moved: no memory is taken, and nothing is refused.
pub fn graft(body: Box<Proof>, kids: Vec<Box<Proof>>) -> Box<Proof>
    requires numbered { CountUpFrom 0 (givens_of (view.proof body.value)) }
    requires many { length (givens_of (view.proof body.value)) ≡ length kids.items }
    requires shallow { spec.height_of
        (spec.graft (view.boxed kids.items) (view.proof body.value)) ≤ most_levels }
    ensures { view.proof result.value
        ≡ spec.graft (view.boxed kids.items) (view.proof body.value) }
{
    let mut body = body;
    let mut kids = kids;
    let mut next = 0;
    let whole = mem::replace(&mut *body, Proof::Given(0));
    *body = filled(whole, &mut next, &mut kids);
    drop(kids);
    body
}

/// The derivation with the kids, from the next one on, in the place of its givens.
/// Then the kid after these is next.
#[cycle(filling)]
fn filled(proof: Proof, next: &mut usize, kids: &mut [Box<Proof>]) -> Proof
    requires shallow { spec.height_of (view.proof proof) ≤ most_levels }
    requires numbered { CountUpFrom next.old (givens_of (view.proof proof)) }
    requires many { next.old + length (givens_of (view.proof proof)) ≤ length kids.old }
    ensures grafted { view.proof result ≡ spec.graft (view.boxed kids.old) (view.proof proof) }
    ensures next { next.new ≡ next.old + length (givens_of (view.proof proof)) }
    ensures rest { drop next.new kids.new ≡ drop next.new kids.old }
{
    match proof {
        Proof::By {
            rule,
            binds,
            kids: parts,
        } => {
            let mut parts = parts;
            fill_each(&mut parts, next, kids);
            Proof::By {
                rule,
                binds,
                kids: parts,
            }
        }
        Proof::Given(_) => {
            let kid = mem::replace(&mut *kids[*next], Proof::Given(0));
            *next += 1;
            kid
        }
    }
}

/// Puts the kids, from the next one on, in the place of the givens of each part.
/// Then the kid after these is next.
#[cycle(filling)]
fn fill_each(parts: &mut [Box<Proof>], next: &mut usize, kids: &mut [Box<Proof>])
    requires shallow { spec.most_height (view.boxed parts.old) < most_levels }
    requires numbered { CountUpFrom next.old (givens_of_all (view.boxed parts.old)) }
    requires many { next.old + length (givens_of_all (view.boxed parts.old)) ≤ length kids.old }
    ensures grafted { view.boxed parts.new
        ≡ spec.grafts (view.boxed kids.old) (view.boxed parts.old) }
    ensures next { next.new ≡ next.old + length (givens_of_all (view.boxed parts.old)) }
    ensures rest { drop next.new kids.new ≡ drop next.new kids.old }
{
    for i in 0..parts.len() {
        let part = mem::replace(&mut *parts[i], Proof::Given(0));
        *parts[i] = filled(part, next, kids);
    }
}
