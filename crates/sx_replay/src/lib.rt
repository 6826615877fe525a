//! The independent checker: it replays a derivation from its list of entries, without a search.
#![tactic(auto)]

mod entry;
mod follow;
mod given;
mod handing;
mod laws;
mod noted;
mod premise_loop;
mod reader;
mod replay_error;
mod replaying;
mod step;

pub use laws::{
    beginnings_are_within, derivations_are_replayed, fronts_are_alone, one_answer_is_due,
};
pub use replay_error::ReplayError;
pub use replaying::replay;
