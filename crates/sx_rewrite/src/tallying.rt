//! The size of lowered derivations, counted before they are made.

ghost use Rattle.std.specs.Prelude.{◌≡◌, ◌<◌, ◌≤◌, length};
ghost use Rattle.sx_rules.specs.Derivations.{height_of, most_height};
ghost use Rattle.sx_rules.specs.ProofView as view;
ghost use Rattle.sx_rewrite.specs.AcceptedView.{accepted};
ghost use Rattle.sx_rewrite.specs.Sizes.{IsSmallCertificate};
ghost use Rattle.sx_rewrite.specs.LoweredSizes.{HasFitKids, HaveFitKids, IsLoweredSize};
ghost use Rattle.sx_rewrite.specs.Tallies.{IsTallyOf, IsSizedTally, IsBaseTally, IsWithKid};
ghost use Rattle.sx_rules.specs.Limits.{most_levels};

use crate::accepted::Accepted;
use crate::certificate_size::CertificateSize;
use crate::given_use::GivenUse;
use crate::lowered_size::LoweredSize;
use crate::lowered_tally::LoweredTally;
use crate::sizing::use_at;
use sx_rules::Proof;

/// How big the proof is when it is lowered by the set, or None exactly where it then has
/// more nodes than the budget. No memory is taken, no certificate is looked at, and
/// no kid whose given the certificate of its node does not use.
pub(crate) fn lowered_size(set: &Accepted, proof: &Proof, budget: u64) -> Option<LoweredSize>
    requires shallow { height_of (view.proof proof.now) ≤ most_levels }
    requires kids { HasFitKids (accepted set.now) (view.proof proof.now) }
    ensures { IsLoweredSize (accepted set.now) (view.proof proof.now) budget result }
{
    tally(set, proof).within(budget)
}

/// What is counted of the lowered proof.
#[cycle(tallied)]
fn tally(set: &Accepted, proof: &Proof) -> LoweredTally
    requires shallow { height_of (view.proof proof.now) ≤ most_levels }
    requires kids { HasFitKids (accepted set.now) (view.proof proof.now) }
    ensures { IsTallyOf (accepted set.now) (view.proof proof.now) result }
{
    match proof {
        Proof::By {
            rule,
            binds: _,
            kids,
        } => match set.certificate_size(*rule) {
            Some(size) => certificate_tally(set, size, kids),
            None => base_tally(set, kids),
        },
        Proof::Given(_) => LoweredTally::of_one(),
    }
}

/// What is counted of a node with these kids by an extension rule whose certificate has the size.
#[cycle(tallied)]
fn certificate_tally(set: &Accepted, size: &CertificateSize, kids: &[Box<Proof>]) -> LoweredTally
    requires shallow { most_height (view.boxed kids.now) < most_levels }
    requires fit { HaveFitKids (accepted set.now) (view.boxed kids.now) }
    requires many { length kids.now ≡ length size.now.uses.items }
    requires small { IsSmallCertificate size.now }
    ensures { IsSizedTally (accepted set.now) size.now (view.boxed kids.now) result }
{
    let mut all = size.own_tally();
    for i in 0..kids.len() {
        let given = use_at(&size.uses, i);
        all = with_kid(set, all, given, &kids[i]);
    }
    all
}

/// What is counted of a node with these kids by a base rule.
#[cycle(tallied)]
fn base_tally(set: &Accepted, kids: &[Box<Proof>]) -> LoweredTally
    requires shallow { most_height (view.boxed kids.now) < most_levels }
    requires fit { HaveFitKids (accepted set.now) (view.boxed kids.now) }
    ensures { IsBaseTally (accepted set.now) (view.boxed kids.now) result }
{
    let mut all = LoweredTally::of_one();
    for i in 0..kids.len() {
        all = with_kid(set, all, GivenUse { times: 1, above: 1 }, &kids[i]);
    }
    all
}

/// What is counted so far, with a kid whose given is used so.
#[cycle(tallied)]
fn with_kid(set: &Accepted, so_far: LoweredTally, given: GivenUse, kid: &Proof) -> LoweredTally
    requires shallow { height_of (view.proof kid.now) < most_levels }
    requires kids { HasFitKids (accepted set.now) (view.proof kid.now) }
    requires near { given.above ≤ most_levels }
    ensures { IsWithKid (accepted set.now) given (view.proof kid.now) so_far result }
{
    if given.times == 0 {
        return so_far;
    }
    so_far.with_kid(given, tally(set, kid))
}
