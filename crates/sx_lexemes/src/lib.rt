//! Where the lexemes of derivations come from.
//!
//! Rules bind each variable from the inputs of their conclusion and from the outputs of their
//! premises. So a lexeme of a judgement that is derived stands at its inputs, in a hypothesis or in
//! a rule, and one of a lowered judgement may stand in a flat body too. These are laws; no code of
//! this crate runs.
#![tactic(auto)]

mod laws;

pub use laws::{
    derived_keep_lexemes, grown_sets_keep_lexemes, images_keep_lexemes, lowered_keep_lexemes,
};
