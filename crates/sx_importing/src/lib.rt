//! The steps with the interfaces of imports, which every command over modules has.
//!
//! - `read_import`, `read_imports`: the interfaces of imports, with the digests of their files.
//!   `add_import` adds one behind those that were read.
//! - `make_environment`: the environment of a module, by the interfaces of its imports.
//! - `keep_digest`, `keep_text`, `digest_differs`, `kept_differs`: what a file keeps of another one
//!   is what was found, or they differ.
//! - Laws: the steps have one result each (`imports_are_one`, `environments_agree`).
#![tactic(auto)]

mod environment_making;
mod import_stops;
mod imports_reading;
mod kept_values;
mod laws;

pub use environment_making::make_environment;
pub use imports_reading::{add_import, read_import, read_imports};
pub use kept_values::{digest_differs, keep_digest, keep_text, kept_differs};
pub use laws::{environments_agree, imports_are_one};
