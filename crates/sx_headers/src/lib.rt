//! The steps that read headers and interfaces of modules from their files.
//!
//! - `read_module`: the header in a module's file, or in its base file. `read_interface_file`: the
//!   interface of a module.
//! - `row_line`: the line of a row of a header. `check_imports`: the names of a module's imports
//!   are no literals of its language.
//! - `uncut_text`, `unread_text`: the stops of texts of modules that are not read.
#![tactic(auto)]

mod free_imports;
mod header_rows;
mod header_stops;
mod interface_file;
mod module_file;
mod text_stops;

pub use free_imports::check_imports;
pub use header_rows::row_line;
pub use header_stops::{bad_header, bad_line_of_header};
pub use interface_file::{InterfaceFile, read_interface_file};
pub use module_file::{ModuleFile, read_module};
pub use text_stops::{uncut_text, unread_text};
