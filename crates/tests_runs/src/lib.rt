//! Runs of commands over files in memory, and what the tests ask of the files and of the plans.
#![tactic(auto)]

pub mod files;
pub mod plans;
pub mod run;
