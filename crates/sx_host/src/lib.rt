//! The host as the commands see it: the current folder, standard input, standard output and the
//! words of the command line.
//!
//! The host tells nothing of what files hold, of what comes in and of what went out, so contents
//! are `None`; faults are counted.
#![tactic(auto)]

mod arguments;
mod folder;
mod standard_input;
mod standard_output;

pub use arguments::{ArgumentsError, read_arguments};
pub use folder::Folder;
pub use standard_input::StandardInput;
pub use standard_output::StandardOutput;
