//! The verification of a module.
//!
//! - `plan_verify`: the steps of `verify NAME`. Laws: what they promise, which follows from the
//!   steps (`verifies_keep_promise`), that they have one result (`verifies_agree`), and that no
//!   stop is a type error (`verifies_without_type_errors`).
//! - `read_entries`, `replay_goal`, `bad_replay`, `verified_work`: a derivation list in its file,
//!   its replay for a goal, why it fits no derivation, and the line. They serve core files too.
#![tactic(auto)]

mod asked;
mod base_fits;
mod body_reading;
mod kept_imports;
mod language_stating;
mod laws;
mod list_reading;
mod list_replaying;
mod over;
mod own_dialect;
mod replay_stops;
mod signatures;
mod verified_lines;
mod verify_module;
mod verify_over;
mod written_files;

pub use laws::{verifies_agree, verifies_keep_promise, verifies_without_type_errors};
pub use list_reading::read_entries;
pub use list_replaying::replay_goal;
pub use replay_stops::{bad_entry, bad_replay};
pub use verified_lines::verified_work;
pub use verify_module::plan_verify;
