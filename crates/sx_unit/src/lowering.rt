//! Lowered derivations.

use sx_rules::{Entry, Judgement};

/// What a derivation is lowered to: its list, and its judgement.
#[derive(Drop)]
pub(crate) struct Lowering {
    pub list: Vec<Entry>,
    pub judgement: Judgement,
}
