//! Extension files along their `use` lines: the steps of `check NAME` and `build NAME` that read
//! the headers of extensions before any of them is read whole.
//!
//! - `read_extension_file`: the file of one extension, as far as its header.
//! - `ExtensionKind`: extensions as files that a walk goes through.
//! - `read_uses`: the files of all extensions that are reached from some by `use` lines, each once
//!   and after those that it uses; or the first refusal that the walk comes to.
//! - `files_agree`, `uses_agree`: by the files there is one result, but for read faults and out of
//!   memory. `uses_come_first`, `root_comes_last`: what was read stands after all that it uses.
#![tactic(auto)]

mod extension_file;
mod extension_kind;
mod laws;
mod read_extension;
mod uses_reading;

pub use extension_file::ExtensionFile;
pub use extension_kind::ExtensionKind;
pub use laws::{files_agree, root_comes_last, uses_agree, uses_come_first};
pub use read_extension::read_extension_file;
pub use uses_reading::read_uses;
