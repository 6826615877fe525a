//! Where the derivations end that begin with the entries of a list.

ghost use Rattle.std.specs.Prelude.{◌≡◌, ◌+◌, ◌<◌, IfOk, List, ℕ, length, map, get_or};
ghost use Rattle.sx_rules.specs.Derivations as spec;
ghost use Rattle.sx_rules.specs.Derivations.{nodes_of};
ghost use Rattle.sx_rules.specs.EntryView.{entries};
ghost use Rattle.sx_rules.specs.Orders.{order_of};
ghost use Rattle.sx_rules.specs.Rules.{judgements_of};
ghost use Rattle.sx_rules.specs.Views.{premise};
ghost use Rattle.sx_plain.specs.Measures.{total};
ghost use Rattle.sx_rewrite.specs.AcceptedView.{accepted};
ghost use Rattle.sx_rewrite.specs.LoweredSizes.{HasFitKids};
ghost use Rattle.sx_expand.specs.Standing.{IsDerivationListed, AreEnds, AreEndsFrom};
ghost use Rattle.sx_expand.specs.Steps.{AreSteps};

use std::alloc::Global;
use sx_rewrite::Accepted;
use sx_rules::{Entry, Premise};
use sx_term::NoMemory;

/// For each entry of the list the number of the entry after the derivation that begins with it.
pub(crate) fn ends_of(alloc: Global, set: &Accepted, list: &[Entry]) -> Result<Vec<usize>, NoMemory>
    requires { (p : spec.Proof) × HasFitKids (accepted set.now) p
        × (entries list.now ≡ order_of p) }
    ensures { IfOk result (λ ends. AreEnds (accepted set.now) (entries list.now) ends.items) }
{
    let mut ends = Vec::from_elem(alloc, 0, list.len())?;
    let mut left = list.len();
    while left > 0 {
        left -= 1;
        let end = end_at(set, list, &ends, left);
        ends[left] = end;
    }
    Ok(ends)
}

/// The number of the entry after the derivation that begins with the entry at the place, by those
/// of the entries after it.
fn end_at(set: &Accepted, list: &[Entry], ends: &[usize], at: usize) -> usize
    requires ends { AreEndsFrom (accepted set.now) (entries list.now) (at + 1) ends.now }
    requires listed { (p : spec.Proof)
        × IsDerivationListed (accepted set.now) (entries list.now) at p }
    ensures { (p : spec.Proof) → IsDerivationListed (accepted set.now) (entries list.now) at p →
        result ≡ at + nodes_of p }
{
    set.facts();
    match entry_at(list, at) {
        Entry::Rule(number) => match set.rules().rule(number) {
            Some(rule) => after_kids(&rule.premises, ends, at + 1),
            None => at + 1,
        },
        Entry::Given(_) => at + 1,
    }
}

/// The entry at the place.
pub(crate) fn entry_at(list: &[Entry], at: usize) -> Entry
    requires { at < length list.now }
    ensures { result ≡ get_or list.now at result }
{
    list[at]
}

/// The number after those of a kid for each judgement among the premises, from the first on.
fn after_kids(premises: &[Premise], ends: &[usize], first: usize) -> usize
    requires { (sizes : List ℕ)
        × (length sizes ≡ length (judgements_of (map premise premises.now)))
        × AreSteps ends.now first sizes }
    ensures { (sizes : List ℕ) →
        length sizes ≡ length (judgements_of (map premise premises.now)) →
        AreSteps ends.now first sizes → result ≡ first + total sizes }
{
    let mut end = first;
    for premise in premises {
        match premise {
            Premise::Holds(_) => end = number_at(ends, end),
            Premise::Apart(_, _) => {}
        }
    }
    end
}

/// The number at the place.
pub(crate) fn number_at(numbers: &[usize], at: usize) -> usize
    requires { at < length numbers.now }
    ensures { result ≡ get_or numbers.now at 0 }
{
    numbers[at]
}
