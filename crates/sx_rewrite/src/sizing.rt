//! Sizes of certificates.

ghost use Rattle.std.specs.Prelude.{◌≡◌, ◌+◌, ◌<◌, ◌≤◌, IfOk, get_or, length, map, max};
ghost use Rattle.std.specs.List.{AllByRecursion};
ghost use Rattle.sx_rules.specs.Rules.{judgements_of};
ghost use Rattle.sx_rules.specs.Derivations.{height_of};
ghost use Rattle.sx_rules.specs.ProofView as view;
ghost use Rattle.sx_rules.specs.Views.{premise, rule};
ghost use Rattle.sx_rewrite.specs.Stored.{checked_of};
ghost use Rattle.sx_rewrite.specs.Measured.{is_used};
ghost use Rattle.sx_rewrite.specs.Copied.{times_given};
ghost use Rattle.sx_rewrite.specs.Counts as count;
ghost use Rattle.sx_rewrite.specs.Shallow.{IsShallowFlat};
ghost use Rattle.sx_rewrite.specs.Sizes.{
  in_u128,
  unused_givens,
  noted_givens,
  AreUsesOf,
  AreSizesOf,
};
ghost use Rattle.sx_rules.specs.Limits.{most_levels};

use crate::certificate_size::CertificateSize;
use crate::ext_rule::ExtRule;
use crate::flat::Flat;
use crate::given_use::GivenUse;
use crate::own_size::OwnSize;
use std::alloc::Global;
use sx_rules::{Premise, Proof};
use sx_term::NoMemory;

/// The sizes of the certificates of the rules, in order.
pub(crate) fn certificate_sizes(
    alloc: Global,
    rules: &[ExtRule],
    flats: &[Flat],
) -> Result<Vec<CertificateSize>, NoMemory>
    requires many { length flats.now ≡ length rules.now }
    requires shallow { AllByRecursion IsShallowFlat flats.now }
    ensures { IfOk result (λ sizes. AreSizesOf
        (checked_of (map (λ e. rule e.rule) rules.now) flats.now) sizes.items) }
{
    let mut sizes = Vec::with_capacity(alloc, flats.len())?;
    for i in 0..flats.len() {
        sizes.push(certificate_size(alloc, &rules[i].rule.premises, &flats[i].proof)?)?;
    }
    Ok(sizes)
}

/// The size of the certificate of a rule with these premises.
fn certificate_size(
    alloc: Global,
    premises: &[Premise],
    certificate: &Proof,
) -> Result<CertificateSize, NoMemory>
    requires { height_of (view.proof certificate.now) ≤ most_levels }
    ensures nodes { IfOk result
        (λ size. size.nodes ≡ in_u128 (count.own_nodes (view.proof certificate.now))) }
    ensures height { IfOk result
        (λ size. size.height ≡ count.own_height (view.proof certificate.now)) }
    ensures many { IfOk result
        (λ size. length size.uses.items ≡ length (judgements_of (map premise premises.now))) }
    ensures uses { IfOk result (λ size. AreUsesOf 0 (view.proof certificate.now) size.uses.items) }
{
    let mut uses = no_uses(alloc, premises)?;
    let own = note(certificate, 0, &mut uses);
    Ok(CertificateSize {
        nodes: own.nodes,
        height: own.height,
        uses,
    })
}

/// For each judgement among the premises a given that is not used.
fn no_uses(alloc: Global, premises: &[Premise]) -> Result<Vec<GivenUse>, NoMemory>
    ensures { IfOk result (λ uses. uses.items
        ≡ unused_givens (length (judgements_of (map premise premises.now)))) }
{
    let mut uses = Vec::new(alloc);
    for premise in premises {
        match premise {
            Premise::Holds(_) => uses.push(GivenUse { times: 0, above: 0 })?,
            Premise::Apart(_, _) => {}
        }
    }
    Ok(uses)
}

/// The use of the given with this number.
pub(crate) fn use_at(uses: &[GivenUse], given: usize) -> GivenUse
    requires { given < length uses.now }
    ensures { result ≡ get_or uses.now given result }
{
    uses[given]
}

/// The use of a given that stands once more, under so many nodes.
fn once_more(given: GivenUse, above: u32) -> GivenUse
    ensures { result ≡ record { times = in_u128 (given.times + 1); above = max given.above above } }
{
    GivenUse {
        times: given.times.saturating_add(1),
        above: given.above.max(above),
    }
}

/// Notes which givens stand in the proof, which stands under so many nodes.
/// The answer is the proof's own size.
fn note(proof: &Proof, above: u32, uses: &mut Vec<GivenUse>) -> OwnSize
    requires shallow { above + height_of (view.proof proof.now) ≤ most_levels + 1 }
    ensures nodes { result.nodes ≡ in_u128 (count.own_nodes (view.proof proof.now)) }
    ensures height { result.height ≡ count.own_height (view.proof proof.now) }
    ensures uses { uses.new.items ≡ noted_givens (λ i. times_given i (view.proof proof.now))
        (λ i. is_used i (view.proof proof.now))
        (λ i. count.nodes_above i (view.proof proof.now)) above 0 uses.old.items }
{
    match proof {
        Proof::By {
            rule: _,
            binds: _,
            kids,
        } => {
            let mut nodes: u128 = 1;
            let mut height: u32 = 0;
            for kid in kids {
                let own = note(kid, above + 1, uses);
                nodes = nodes.saturating_add(own.nodes);
                height = height.max(own.height);
            }
            OwnSize {
                nodes,
                height: height + 1,
            }
        }
        Proof::Given(number) => {
            let i = *number as usize;
            if i < uses.len() {
                let given = use_at(uses, i);
                uses[i] = once_more(given, above);
            }
            OwnSize {
                nodes: 0,
                height: 0,
            }
        }
    }
}
