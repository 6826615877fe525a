//! The top call.
#![tactic(auto)]

mod build_core;
mod call;
mod commands;
mod core_stops;
mod forms;
mod goal_stops;
mod goal_texts;
mod laws;
mod perform;
mod plan;
mod read_core;
mod search;
mod tell;
mod texts;
mod verify_core;
mod verify_laws;
mod written;

pub use call::run;
pub use laws::{denied_are_unwritten, one_outcome, type_errors_are_final, walks_are_within};
pub use sx_steps::Status;
pub use verify_laws::{built_is_verified, found_is_within};
