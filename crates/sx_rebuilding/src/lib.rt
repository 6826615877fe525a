//! Commands that are given again, over the files that a build leaves.
//!
//! - `compile_repeats_build`: over the files that a build without auditors left, `compile` of each
//!   of its modules changes no file.
//! - `verify_follows_build`: over the files that a build left, `verify` of each of its modules is
//!   not refused.
//!
//! These are laws of runs of the top call; no code of this crate runs.
#![tactic(auto)]

mod compile_steps;
mod laws;
mod verify_steps;

pub use laws::{compile_repeats_build, verify_follows_build};
