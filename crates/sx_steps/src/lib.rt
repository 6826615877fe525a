//! Steps of commands: what a step answers, why a command ends early, files that are read, and files
//! that are to be written.
//!
//! - `Stop` is why a command ends early, with the file that it is about: `status` and `line` say
//!   what it then answers. `StepError` is that or out of memory.
//! - `refused`, `refused_at`, `bad_line`, `bad_rules`: stops that more than one command has.
//! - `read_file`: the bytes of a file on the shelf.
//! - `Work` is what is left to do where no step stopped; `built_work` is that of a unit that was
//!   built, and `nodes_line` the line that says so.
#![tactic(auto)]

mod held;
mod joining;
mod status;
mod step_error;
mod stop;
mod stops;
mod unit;
mod work;

pub use held::{MOST_LIST_BYTES, read_file};
pub use joining::{joined, with_suffix};
pub use status::Status;
pub use step_error::StepError;
pub use stop::{Stop, about, refusal_line};
pub use stops::{bad_line, bad_rules, refused, refused_at};
pub use unit::{built_work, nodes_line};
pub use work::{Output, Work};
