//! Kids at the places of their givens.

ghost use Rattle.std.specs.Prelude.{◌≡◌, ℕ, ◌+◌, ◌<◌, ◌≤◌, IfOk, OnOk, Some, length};
ghost use Rattle.std.specs.Prelude.{slice_index_or};
ghost use Rattle.sx_rules.specs.Derivations as spec;
ghost use Rattle.sx_rules.specs.ProofView as view;
ghost use Rattle.sx_rewrite.specs.Givens.{placed_at, number_times, NumbersBelow};
ghost use Rattle.sx_rewrite.specs.Taken.{IsPlaceTaken};
ghost use Rattle.sx_rules.specs.Limits.{most_levels};

use std::alloc::Global;
use std::mem;
use sx_rules::{Proof, copy_proof};
use sx_term::NoMemory;

/// The kid at each place, where the givens tell whose place it is. A kid is
/// moved to its last place and copied for those before it; one without a
/// place is dropped. The one refusal is out of memory.
pub(crate) fn placed_kids(
    alloc: Global,
    givens: &Vec<u32>,
    kids: Vec<Box<Proof>>,
) -> Result<Vec<Box<Proof>>, NoMemory>
    requires below { NumbersBelow (length kids.items) givens.now.items }
    requires height { spec.most_height (view.boxed kids.items) ≤ most_levels }
    requires binds { spec.HaveShallowBinds (view.boxed kids.items) }
    ensures { IfOk result (λ x. view.boxed x.items
        ≡ placed_at (view.boxed kids.items) givens.now.items) }
{
    let mut kids = kids;
    let mut left = places_left(alloc, givens, kids.len())?;
    let placed = put_kids(alloc, givens, &mut left, &mut kids);
    drop(left);
    drop(kids);
    placed
}

/// How many places each of so many kids has.
fn places_left(alloc: Global, givens: &Vec<u32>, many: usize) -> Result<Vec<usize>, NoMemory>
    requires { NumbersBelow many givens.now.items }
    ensures many { IfOk result (λ x. length x.items ≡ many) }
    ensures times { IfOk result
        (λ x. (g : ℕ) → g < many → slice_index_or x.items g 0 ≡ number_times g givens.now.items) }
{
    let mut left = Vec::from_elem(alloc, 0, many)?;
    for i in 0..givens.len() {
        left[givens[i] as usize] += 1;
    }
    Ok(left)
}

/// The kid at each place, where so many places are left for each kid.
fn put_kids(
    alloc: Global,
    givens: &[u32],
    left: &mut [usize],
    kids: &mut [Box<Proof>],
) -> Result<Vec<Box<Proof>>, NoMemory>
    requires below { NumbersBelow (length kids.old) givens.now }
    requires many { length left.old ≡ length kids.old }
    requires times { (g : ℕ) → g < length kids.old →
        slice_index_or left.old g 0 ≡ number_times g givens.now }
    requires height { spec.most_height (view.boxed kids.old) ≤ most_levels }
    requires binds { spec.HaveShallowBinds (view.boxed kids.old) }
    ensures { IfOk result (λ x. view.boxed x.items ≡ placed_at (view.boxed kids.old) givens.now) }
{
    let mut placed = Vec::with_capacity(alloc, givens.len())?;
    for i in 0..givens.len() {
        placed.push(take_kid(alloc, givens[i] as usize, left, kids)?)?;
    }
    Ok(placed)
}

/// The kid with this number, which has a place left: moved where that is its last,
/// and copied before.
fn take_kid(
    alloc: Global,
    number: usize,
    left: &mut [usize],
    kids: &mut [Box<Proof>],
) -> Result<Box<Proof>, NoMemory>
    requires within { number < length kids.old }
    requires many { length left.old ≡ length kids.old }
    requires some { 0 < slice_index_or left.old number 0 }
    requires height { spec.most_height (view.boxed kids.old) ≤ most_levels }
    requires binds { spec.HaveShallowBinds (view.boxed kids.old) }
    ensures taken { OnOk result (IsPlaceTaken number left.old left.new kids.old kids.new) }
    ensures kid { IfOk result
        (λ x. Some (view.proof x.value) ≡ spec.proof_at (view.boxed kids.old) number) }
{
    left[number] -= 1;
    if left[number] > 0 {
        return copy_proof(alloc, &kids[number]);
    }
    let kid = mem::replace(&mut *kids[number], Proof::Given(0));
    Ok(Box::new(alloc, kid)?)
}
