//! Derivations that are rewritten.

ghost use Rattle.std.specs.Prelude.{◌≡◌, length, MatchResult};
ghost use Rattle.sx_rules.specs.ProofView as view;
ghost use Rattle.sx_rules.specs.Rules as known;
ghost use Rattle.sx_rules.specs.Derivations.{Derives, ShallowJudgements};
ghost use Rattle.sx_rules.specs.Sets.{shapes_in, bare_rules_in};
ghost use Rattle.sx_rules.specs.Views.{hypotheses, judgement};
ghost use Rattle.sx_rewrite.specs.PutSubjects.{IsProofReady};
ghost use Rattle.sx_rewrite.specs.declared.rewrite_error.RewriteError.TheVariants.{Memory};
ghost use Rattle.sx_rewrite.specs.AcceptedView.{accepted, signature};
ghost use Rattle.sx_rewrite.specs.PlainRules.{plain_of};
ghost use Rattle.sx_rewrite.specs.Rewrites.{CanRewrite, AreGood, CountsAlike};
ghost use Rattle.sx_rewrite.specs.RewrittenView.{IsRewriting};
ghost use Rattle.sx_rewrite.specs.SourceView.{set_of, IsSource};

use crate::accepted::Accepted;
use crate::lowered::Lowered;
use crate::lowered_judgement::lowered_judgement;
use crate::lowering::lower_proof;
use crate::rewrite_error::RewriteError;
use crate::source::Source;
use crate::tallying::lowered_size;
use std::alloc::Global;
use sx_rules::{Hyps, Proof};

/// How deep a derivation may be.
const MOST_HEIGHT: u64 = sx_rules::MOST_LEVELS as u64;

/// What a derivation by the plain rules of the set, from base hypotheses, is lowered
/// to. Where that has more nodes than the budget, is deeper than 3,000, or has a
/// term over a limit, the first of these is refused, in this order. The program takes `expand_open`
/// of sx_expand, which answers the same by lists; this is its plain form.
pub fn rewrite_open(
    alloc: Global,
    set: &Accepted,
    proof: &Proof,
    given: &Hyps,
    budget: u64,
) -> Result<Lowered, RewriteError>
    requires given { AreGood (length (shapes_in set.now.base)) (hypotheses given.now) }
    requires derived { CanRewrite (plain_of (accepted set.now)) (hypotheses given.now)
        (view.proof proof.now) }
    ensures { IsRewriting (plain_of (accepted set.now)) (signature set.now).subjects
        (hypotheses given.now) (view.proof proof.now) budget result }
{
    set.facts();
    let source = Source {
        set,
        rules: set.plain_rules(),
        given,
    };
    rewrite_by(alloc, &source, proof, budget)
}

/// What a derivation by the extended rules of the set, without hypotheses, is lowered
/// to. Where that has more nodes than the budget, is deeper than 3,000, or has a
/// term over a limit, the first of these is refused, in this order. The program takes `expand` of
/// sx_expand, which answers the same by lists; this is its plain form, by which tests compare it.
pub fn rewrite(
    alloc: Global,
    set: &Accepted,
    proof: &Proof,
    budget: u64,
) -> Result<Lowered, RewriteError>
    requires { CanRewrite (accepted set.now) known.no_hypotheses (view.proof proof.now) }
    ensures { IsRewriting (accepted set.now) (signature set.now).subjects known.no_hypotheses
        (view.proof proof.now) budget result }
{
    let none = Hyps::none(alloc);
    let answer = rewrite_from(alloc, set, proof, &none, budget);
    drop(none);
    answer
}

/// What a derivation by the extended rules of the set, from base hypotheses, is lowered to,
/// or the first refusal.
fn rewrite_from(
    alloc: Global,
    set: &Accepted,
    proof: &Proof,
    given: &Hyps,
    budget: u64,
) -> Result<Lowered, RewriteError>
    requires given { AreGood (length (shapes_in set.now.base)) (hypotheses given.now) }
    requires derived { CanRewrite (accepted set.now) (hypotheses given.now)
        (view.proof proof.now) }
    ensures { IsRewriting (accepted set.now) (signature set.now).subjects (hypotheses given.now)
        (view.proof proof.now) budget result }
{
    set.facts();
    let source = Source {
        set,
        rules: set.rules(),
        given,
    };
    rewrite_by(alloc, &source, proof, budget)
}

/// What the derivation is lowered to, or the first refusal.
fn rewrite_by(
    alloc: Global,
    source: &Source,
    proof: &Proof,
    budget: u64,
) -> Result<Lowered, RewriteError>
    requires source { IsSource source.now }
    requires counts { CountsAlike source.now }
    requires derived { CanRewrite (set_of source.now) (hypotheses source.now.given.now)
        (view.proof proof.now) }
    ensures { IsRewriting (set_of source.now) (signature source.now.set.now).subjects
        (hypotheses source.now.given.now) (view.proof proof.now) budget result }
{
    match lowered_size(source.set, proof, budget) {
        None => Err(RewriteError::RewriteSpent(budget)),
        Some(size) => {
            if size.height > MOST_HEIGHT {
                return Err(RewriteError::RewriteDeep);
            }
            let made = lower_proof(alloc, source, proof)?;
            with_judgement(alloc, source, made, size.copied)
        }
    }
}

/// The lowered derivation with its judgement. The one refusal is out of memory.
fn with_judgement(
    alloc: Global,
    source: &Source,
    proof: Box<Proof>,
    copied: u64,
) -> Result<Lowered, RewriteError>
    requires near { ShallowJudgements (hypotheses source.now.given.now).judgements }
    requires ready { IsProofReady (bare_rules_in source.now.set.now.base)
        (hypotheses source.now.given.now) (view.proof proof.value) }
    ensures { MatchResult result
        (λ x. (view.proof x.proof.value ≡ view.proof proof.value) × (x.copied ≡ copied)
        × ((k : known.Judgement) →
        Derives (bare_rules_in source.now.set.now.base) (hypotheses source.now.given.now)
        k (view.proof proof.value) →
        judgement x.judgement ≡ k))
        (λ e. e ≡ Memory) }
{
    match lowered_judgement(alloc, &source.set.base, source.given, &proof) {
        Ok(judgement) => Ok(Lowered {
            proof,
            judgement,
            copied,
        }),
        Err(_) => {
            drop(proof);
            Err(RewriteError::Memory)
        }
    }
}
