//! The check of an extension: the steps of `check NAME`.
//!
//! - `plan_check`: the lines that are to be written, or why none are. The extension's file is read
//!   as far as its header, then its language's, then those of the extensions that it uses; and then
//!   each of them is read and accepted, itself last. Where all are accepted, the lines are the
//!   certificate of each rule of the extension, and how many rules it has.
#![tactic(auto)]

mod accepted_lines;
mod asked;
mod certificate_text;
mod check_extension;
mod laws;
mod rule_lines;
mod sought;

pub use check_extension::plan_check;
pub use laws::{checks_agree, checks_keep_promise, unsound_checks_are_final};
