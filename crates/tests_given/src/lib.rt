//! What tests of several crates are about: files of languages and extensions, an auditor of the
//! tests' own, and refusals as plain values.
#![tactic(auto)]

pub mod extensions;
mod file;
pub mod languages;
mod refusals;
mod stop;

pub use file::File;
pub use refusals::{Told, refusal};
pub use stop::Stop;
