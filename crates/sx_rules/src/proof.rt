//! Derivations.

use sx_term::Term;

/// A derivation: by a rule, with a term for each variable of the rule and a proof for each
/// judgement among its premises, or a hypothesis. Numbers count from 0.
#[derive(Drop)]
pub enum Proof {
    By {
        rule: u32,
        binds: Vec<Term>,
        kids: Vec<Box<Proof>>,
    },
    Given(u32),
}
