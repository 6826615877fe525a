//! Texts of stuck goals.
//!
//! - `stuck_text`: why a goal has no derivation, as a printed line says it. The stuck goal is
//!   printed by a grammar of rules, with the names of its variables.
//! - `stuck_goals_are_sorted`: the stuck goal of a well sorted goal is well sorted, and so are the
//!   outputs that were got. `sorted_blames_can_be_told`: what is well sorted by a grammar can be
//!   printed by its grammar of rules.
#![tactic(auto)]

mod goal_telling;
mod laws;
mod telling;

pub use goal_telling::stuck_text;
pub use laws::{sorted_blames_can_be_told, stuck_goals_are_sorted};
pub use telling::Telling;
