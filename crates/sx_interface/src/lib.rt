//! Headers of modules, interfaces and digests.
#![tactic(auto)]

mod error;
mod hashing;
mod headers;
mod import;
mod interface_reading;
mod interface_rows;
mod interface_writing;
mod interfaces;
mod laws;
mod mark_rows;
mod marks;
mod rows;
mod texts;
mod version;

pub use error::HeaderError;
pub use hashing::digest;
pub use headers::{Header, read_header};
pub use import::Import;
pub use interface_reading::{read_interface, written_interface_is_read};
pub use interface_writing::write_interface;
pub use interfaces::{ImportMark, Interface};
pub use laws::interfaces_are_within;
pub use marks::{Digest, read_digest, write_digest};
